//! A page with the pictures of an answer.
use crate::boxes::instant_text;
use crate::colours::{Colours, Kind, STEPS, colours_of, in_order};
use crate::places::whole;
use crate::plan::{Plan, labels_of};
use answer::Answer;
use beliefs::calendar::day_or_no_end;
use beliefs::lines::put_wrapped;
use beliefs::picture::{Asking, Picture, pictures_of};
use model::member::Member;
use std::alloc::{AllocError, Global};
use std::num::saturating_f64_to_usize;
use svgparts::{Parts, words_wide};

/// How many versions are drawn at most.
pub const MOST: usize = 200;

// The width of the page; more than 24 stretches of days make it wider, up to the second.
const WIDE: f64 = 960.0;

const WIDEST: f64 = 1280.0;

// How many letters the description has at most.
const TOLD: usize = 2_000;

const STYLE: &str =
    "svg{--page:#ffffff;--ink:#16191d;--soft:#4d545c;--line:#8a929b;--faint:#dfe3e7;--stop:#b3261e;}@media (prefers-color-scheme:dark){svg{--page:#14171c;--ink:#eef1f4;--soft:#b4bcc6;--line:#78828e;--faint:#2b3139;--stop:#ff8a80;}}text{font-family:system-ui, -apple-system, 'Segoe UI', Roboto, 'Helvetica Neue', Arial, sans-serif;font-size:13px;fill:#16191d;fill:var(--ink);font-variant-numeric:tabular-nums}.mono{font-family:ui-monospace, SFMono-Regular, Menlo, Consolas, 'DejaVu Sans Mono', monospace;font-size:12px}.soft{fill:#4d545c;fill:var(--soft)}.small{font-size:11.5px}.bold{font-weight:650}.h{font-size:20px;font-weight:650}.m{text-anchor:middle}.e{text-anchor:end}.t{font-size:10.5px}.page{fill:#ffffff;fill:var(--page)}.box{stroke:#ffffff;stroke:var(--page);stroke-width:1.5}.axis{stroke:#8a929b;stroke:var(--line);stroke-width:1;fill:none}.grid{stroke:#dfe3e7;stroke:var(--faint);stroke-width:1;fill:none}.join{stroke:#8a929b;stroke:var(--line);stroke-width:.8;fill:none}.rule{stroke:#4d545c;stroke:var(--soft);stroke-width:1.4;fill:none}.tip{fill:#4d545c;fill:var(--soft)}.not{fill:url(#dots)}.dot{fill:#8a929b;fill:var(--line)}.f0{stop-color:#ffffff;stop-color:var(--page);stop-opacity:1}.f1{stop-color:#ffffff;stop-color:var(--page);stop-opacity:0}";

const DEFINITIONS: &str =
    "<defs><linearGradient id=\"up\" x1=\"0\" y1=\"0\" x2=\"0\" y2=\"1\"><stop class=\"f0\"/><stop class=\"f1\" offset=\"1\"/></linearGradient><linearGradient id=\"on\" x1=\"1\" y1=\"0\" x2=\"0\" y2=\"0\"><stop class=\"f0\"/><stop class=\"f1\" offset=\"1\"/></linearGradient><pattern id=\"dots\" width=\"9\" height=\"9\" patternUnits=\"userSpaceOnUse\"><circle class=\"dot\" cx=\"2\" cy=\"2\" r=\".9\"/></pattern></defs>\n";

/// Draws an answer as an SVG page: the question, which node answers, and for each key the versions as boxes, days rightwards
/// and system time upwards. Stretches are to scale where each has room then; else each has its least room and a share of the
/// rest, and a ruler to scale stands beside. It has no script and takes nothing from outside, and is readable on a light page
/// and on a dark one. None where the answer has more than `MOST` rows; the error is want of memory.
pub fn beliefs_as_svg(
    alloc: Global,
    node: Member,
    answer: &Answer,
    asking: &Asking,
) -> Result<Option<String>, AllocError> {
    if answer.rows.len() > MOST {
        return Ok(None);
    }
    let pictures = pictures_of(alloc, answer, asking)?;
    let colours = colours_of(alloc, pictures.as_slice())?;
    let wide = page_wide(pictures.as_slice());
    let title = headline(alloc, pictures.as_slice())?;
    let mut body = Parts::new(alloc);
    let y = put_head(
        node,
        answer,
        asking,
        &pictures,
        title.as_str(),
        wide,
        &mut body,
    )?;
    let y = put_pictures(&pictures, &colours, asking.top(), wide, y, &mut body)?;
    let high = put_foot(&pictures, &colours, asking.top(), y, &mut body)?;
    let mut page = Parts::new(alloc);
    open_page(title.as_str(), wide, high, &mut page)?;
    put_told(node, answer, asking, &pictures, &mut page)?;
    page.raw("</desc>\n<style>")?;
    page.raw(STYLE)?;
    colours.put_style(&mut page)?;
    page.raw("</style>\n")?;
    page.rect((0.0, 0.0), (wide, high), "class=\"page\"")?;
    page.raw("\n")?;
    page.raw(body.text.as_str())?;
    page.raw("</svg>\n")?;
    let Parts { alloc: _, text } = page;
    Ok(Some(text))
}

fn page_wide(pictures: &[Picture]) -> f64 {
    let mut most = 0;
    for picture in pictures {
        most = picture.days.len().max(most);
    }
    let wide = WIDE + whole(most.saturating_sub(24)) * 16.0;
    if wide > WIDEST { WIDEST } else { wide }
}

fn open_page(title: &str, wide: f64, high: f64, page: &mut Parts) -> Result<(), AllocError> {
    page.raw("<svg xmlns=\"http://www.w3.org/2000/svg\" viewBox=\"0 0 ")?;
    page.number(wide)?;
    page.raw(" ")?;
    page.number(high)?;
    page.raw("\" width=\"")?;
    page.number(wide)?;
    page.raw("\" height=\"")?;
    page.number(high)?;
    page.raw("\" role=\"img\" aria-labelledby=\"t d\" style=\"max-width:100%;height:auto\">\n")?;
    page.raw("<title id=\"t\">")?;
    page.escaped(title)?;
    page.raw("</title>\n<desc id=\"d\">")
}

// The table and the key of a title.
fn parts_of_title<'a>(picture: &'a Picture) -> (&'a str, &'a str) {
    let title = picture.title.as_str();
    title.split_once(", ").unwrap_or((title, ""))
}

// Of a single key its title; of up to four their keys; of more their number.
fn headline(alloc: Global, pictures: &[Picture]) -> Result<String, AllocError> {
    let count = pictures.len();
    let Some(first) = pictures.first() else {
        return String::from_str(alloc, "No rows, so nothing to draw");
    };
    let (table, _) = parts_of_title(first);
    if count == 1 {
        let title = first.title.as_str();
        return format!(in alloc; "What was believed of {title}");
    }
    if count > 4 {
        return format!(in alloc; "What was believed of {table}, {count} keys");
    }
    let mut text = format!(in alloc; "What was believed of {table}")?;
    let mut sign = ": ";
    for picture in pictures {
        let (_, key) = parts_of_title(picture);
        text.push_str(sign)?;
        text.push_str(key)?;
        sign = "; ";
    }
    Ok(text)
}

// The headline, the question, and who answers. It gives the height at which that ends.
fn put_head(
    node: Member,
    answer: &Answer,
    asking: &Asking,
    pictures: &[Picture],
    title: &str,
    wide: f64,
    body: &mut Parts,
) -> Result<f64, AllocError> {
    let alloc = body.alloc;
    body.raw(DEFINITIONS)?;
    body.words(24.0, 38.0, title, "h")?;
    let y = put_question(asking, wide, body)?;
    let last = answer.last.instant();
    let mut line = format!(in alloc;
        "Answered by node {node}; the last instant asked about is {last}."
    )?;
    if let Some(picture) = pictures.first() {
        if let [name] = picture.names.as_slice() {
            line.push_str(format!(in alloc; " Each box shows {name}.")?.as_str())?;
        }
    }
    body.words(24.0, y + 4.0, line.as_str(), "soft")?;
    Ok(y + 16.0)
}

fn put_question(asking: &Asking, wide: f64, body: &mut Parts) -> Result<f64, AllocError> {
    let room = saturating_f64_to_usize((wide - 48.0) / 7.45);
    let mut wrapped = Vec::new(body.alloc);
    put_wrapped(asking.text, room, &mut wrapped)?;
    let mut y = 60.0;
    if let Ok(text) = std::str::from_utf8(wrapped.as_slice()) {
        for line in text.lines() {
            body.words(24.0, y, line, "mono soft")?;
            y += 17.0;
        }
    }
    Ok(y)
}

fn put_pictures<'a>(
    pictures: &'a [Picture],
    colours: &'a Colours,
    top: &'a str,
    wide: f64,
    y: f64,
    body: &mut Parts,
) -> Result<f64, AllocError> {
    let is_only = pictures.len() == 1;
    let mut y = y;
    for picture in pictures {
        let plan = Plan::new(body.alloc, picture, colours, top, (y + 12.0, wide, is_only))?;
        plan.put_back(body)?;
        for version in in_order(body.alloc, picture)? {
            plan.put_box(version, body)?;
        }
        plan.put_open_ends(body)?;
        plan.put_left(body)?;
        plan.put_right(body)?;
        y = plan.put_below(body)?;
    }
    Ok(y)
}

// What signs and colours mean. It gives the height of the page.
fn put_foot(
    pictures: &[Picture],
    colours: &Colours,
    top: &str,
    y: f64,
    body: &mut Parts,
) -> Result<f64, AllocError> {
    let mut y = y + 22.0;
    let Some(first) = pictures.first() else {
        return Ok(y + 4.0);
    };
    if colours.kind == Kind::Ramp {
        put_legend(colours, name_of(first), y, body)?;
        y += 19.0;
    }
    let has_past = pictures.iter().any(|picture| picture
        .versions
        .iter()
        .any(|version| !version.is_believed()));
    let past = if has_past {
        " Faint: believed no more."
    } else {
        ""
    };
    let has_dots = pictures.iter().any(Picture::has_unasked);
    let dots = if has_dots { " Dotted: not asked." } else { "" };
    let axes =
        "Days run rightwards, system time upwards: a level is what was believed at that time, a column what was ever believed of a day.";
    body.words(24.0, y, axes, "soft small")?;
    let signs = format!(in body.alloc; "Strong and open above: {top}.{past}{dots}")?;
    body.words(24.0, y + 17.0, signs.as_str(), "soft small")?;
    Ok(y + 38.0)
}

// The name of the first value column.
fn name_of(picture: &Picture) -> &str {
    match picture.names.first() {
        Some(name) => name.as_str(),
        None => "",
    }
}

// The steps of a ramp, from the least to the greatest number.
fn put_legend(colours: &Colours, name: &str, y: f64, body: &mut Parts) -> Result<(), AllocError> {
    let low = colours.low;
    let high = colours.high;
    let words = format!(in body.alloc; "{name} {low}")?;
    body.words(24.0, y, words.as_str(), "soft small")?;
    let x = 24.0 + words_wide(words.as_str(), 11.5, false) + 6.0;
    for at in 0..STEPS {
        let class = format!(in body.alloc; "class=\"u{at}\"")?;
        body.rect(
            (x + whole(at) * 18.0, y - 10.0),
            (18.0, 12.0),
            class.as_str(),
        )?;
        body.raw("\n")?;
    }
    let words = format!(in body.alloc; "{high} (fainter where it is believed no more)")?;
    body.words(
        x + whole(STEPS) * 18.0 + 6.0,
        y,
        words.as_str(),
        "soft small",
    )
}

// The picture in sentences, for who does not see it.
fn put_told(
    node: Member,
    answer: &Answer,
    asking: &Asking,
    pictures: &[Picture],
    page: &mut Parts,
) -> Result<(), AllocError> {
    let alloc = page.alloc;
    let question = asking.text;
    let count = answer.rows.len();
    let mut told = format!(in alloc; "{question} Answered by node {node}, {count} versions.")?;
    for picture in pictures.iter().take(4) {
        tell(alloc, picture, asking.top(), &mut told)?;
    }
    for (at, letter) in told.as_str().chars().enumerate() {
        if at >= TOLD {
            break;
        }
        match letter {
            '&' => page.raw("&amp;")?,
            '<' => page.raw("&lt;")?,
            '>' => page.raw("&gt;")?,
            letter => page.text.push(letter)?,
        }
    }
    Ok(())
}

fn tell(alloc: Global, picture: &Picture, top: &str, told: &mut String) -> Result<(), AllocError> {
    for version in picture.versions.iter().take(12) {
        told.push_str(" ")?;
        told.push_str(picture.title.as_str())?;
        told.push_str(":")?;
        for label in labels_of(alloc, picture, version)? {
            told.push_str(" ")?;
            told.push_str(label.as_str())?;
        }
        let start = day_or_no_end(alloc, version.start)?;
        let end = day_or_no_end(alloc, version.end)?;
        let since = instant_text(alloc, version.since)?;
        told.push_str(format!(in alloc;
            " from {start} to {end}, believed from {since}, "
        )?.as_str())?;
        if version.is_believed() {
            told.push_str(top)?;
        } else {
            told.push_str("until ")?;
            told.push_str(instant_text(alloc, version.until)?.as_str())?;
        }
        told.push_str(".")?;
    }
    Ok(())
}
