//! The page of a run.
use crate::arrows::put_stubs;
use crate::drawing::Drawing;
use crate::legend::put_legend;
use lanes::run::{Run, What};
use std::alloc::{AllocError, Global};
use svgparts::{Parts, STYLE, open_page};

// How many letters the description has at most.
const TOLD: usize = 2_000;

const COLOURS: &str =
    "svg{--lead:#0067a5;--vote:#93357d;--floor:#006b50;--told:#00704f;--page:#ffffff;--ink:#16191d;--soft:#4d545c;--line:#8a929b;--faint:#dfe3e7;--stop:#b3261e;}@media (prefers-color-scheme:dark){svg{--lead:#62b2ea;--vote:#e79bd0;--floor:#3cc79d;--told:#3cc79d;--page:#14171c;--ink:#eef1f4;--soft:#b4bcc6;--line:#78828e;--faint:#2b3139;--stop:#ff8a80;}}";

const SHAPES: &str =
    ".page{fill:#ffffff;fill:var(--page)}.lane{fill:#8a929b;fill:var(--line)}.lead{fill:#0067a5;fill:var(--lead)}.cand{fill:url(#hatch)}.down{stroke:#8a929b;stroke:var(--line);stroke-width:1.6;stroke-dasharray:1.5 5;fill:none}.v{stroke:#93357d;stroke:var(--vote)}.a{stroke:#0067a5;stroke:var(--lead)}.r{stroke:#8a929b;stroke:var(--line)}.q{stroke:#006b50;stroke:var(--floor)}.x{stroke:#b3261e;stroke:var(--stop)}.v,.a,.r,.q,.x{stroke-width:1.7;fill:none}.r{stroke-width:1.2}.x{stroke-dasharray:5 3.5}.tv{fill:#93357d;fill:var(--vote)}.ta{fill:#0067a5;fill:var(--lead)}.tr{fill:#4d545c;fill:var(--soft)}.tq{fill:#006b50;fill:var(--floor)}.tx{fill:#b3261e;fill:var(--stop)}.cross{stroke:#b3261e;stroke:var(--stop);stroke-width:2.2;fill:none}.told{fill:#00704f;fill:var(--told)}circle,.ask{stroke:#ffffff;stroke:var(--page);stroke-width:1.6}.no,.off{fill:#b3261e;fill:var(--stop)}.on{fill:#16191d;fill:var(--ink)}.ask{fill:#16191d;fill:var(--ink)}.round{stroke:#dfe3e7;stroke:var(--faint);stroke-width:1;fill:none}.act{stroke:#8a929b;stroke:var(--line);stroke-width:.8;fill:none}.halo{paint-order:stroke;stroke:#ffffff;stroke:var(--page);stroke-width:4;stroke-linejoin:round}.k{font-family:ui-monospace, SFMono-Regular, Menlo, Consolas, 'DejaVu Sans Mono', monospace;font-size:12px}.cline{stroke:#93357d;stroke:var(--vote);stroke-width:2}";

const DEFINITIONS: &str =
    "<defs><pattern id=\"hatch\" width=\"5\" height=\"5\" patternUnits=\"userSpaceOnUse\" patternTransform=\"rotate(45)\"><path class=\"cline\" d=\"M0 0v5\"/></pattern></defs>\n";

/// Draws a run as an SVG page: the lines of the script on the left, a lane for each member in the middle, arrows for messages,
/// time downwards, and what came of it on the right. What a round of `settle` delivers stands side by side. It has no script and
/// takes nothing from outside, and is readable on a light page and on a dark one. The error is want of memory.
pub fn run_as_svg(alloc: Global, run: &Run, name: &str) -> Result<String, AllocError> {
    let drawing = drawing_of(alloc, run)?;
    let title = format!(in alloc; "What the members did: {name}")?;
    let mut page = Parts::new(alloc);
    open_page(
        title.as_str(),
        (drawing.wide, drawing.high() + 24.0),
        &mut page,
    )?;
    put_spoken(run, name, &mut page)?;
    page.raw("</desc>\n<style>")?;
    page.raw(COLOURS)?;
    page.raw(STYLE)?;
    page.raw(SHAPES)?;
    page.raw("</style>\n")?;
    put_head(run, title.as_str(), &drawing, &mut page)?;
    page.raw(drawing.back.text.as_str())?;
    page.raw(drawing.arrows.text.as_str())?;
    page.raw(drawing.words.text.as_str())?;
    page.raw("</svg>\n")?;
    let Parts { alloc: _, text } = page;
    Ok(text)
}

fn drawing_of<'a>(alloc: Global, run: &'a Run) -> Result<Drawing<'a>, AllocError> {
    let mut drawing = Drawing::new(alloc, run)?;
    drawing.put_script()?;
    drawing.put_lanes()?;
    drawing.put_names()?;
    drawing.put_events()?;
    put_stubs(&mut drawing)?;
    Ok(drawing)
}

fn put_head(run: &Run, title: &str, drawing: &Drawing, page: &mut Parts) -> Result<(), AllocError> {
    page.rect(
        (0.0, 0.0),
        (drawing.wide, drawing.high() + 24.0),
        "class=\"page\"",
    )?;
    page.raw("\n")?;
    page.raw(DEFINITIONS)?;
    page.words(24.0, 38.0, title, "h")?;
    let members = run.members;
    let count = run.drawn;
    let line = format!(in page.alloc;
        "{members} members, {count} messages. Time runs downwards; what a round of settle delivers stands side by side."
    )?;
    page.words(24.0, 60.0, line.as_str(), "soft")?;
    put_legend(86.0, page)
}

// The picture in sentences, for who does not see it: what was told, who led, what was lost.
fn put_spoken(run: &Run, name: &str, page: &mut Parts) -> Result<(), AllocError> {
    let told = spoken(page.alloc, run, name)?;
    for (at, letter) in told.as_str().chars().enumerate() {
        if at >= TOLD {
            break;
        }
        match letter {
            '&' => page.raw("&amp;")?,
            '<' => page.raw("&lt;")?,
            '>' => page.raw("&gt;")?,
            letter => page.text.push(letter)?,
        }
    }
    Ok(())
}

fn spoken(alloc: Global, run: &Run, name: &str) -> Result<String, AllocError> {
    let members = run.members;
    let count = run.drawn;
    let mut told = format!(in alloc; "{name}: {members} members, {count} messages.")?;
    for act in &run.acts {
        for event in &act.events {
            let node = event.node;
            for note in &event.notes {
                let words = note.long.as_str();
                told.push_str(format!(in alloc; " Node {node} {words}.")?.as_str())?;
            }
            if let What::Loses(number) = event.what {
                told.push_str(format!(in alloc; " Message {number} is lost.")?.as_str())?;
            }
        }
    }
    Ok(told)
}
