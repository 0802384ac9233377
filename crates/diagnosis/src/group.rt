//! Why files are not the flights of one group.
use crate::cause::{Cause, Found};
use crate::finding::{Heading, find_heading, head};
use crate::name::Name;
use std::alloc::Global;

// What two flights of one group have in common, and these have not.
fn unlike(one: &Heading<'_>, other: &Heading<'_>) -> Option<&'static str> {
    if one.version != other.version {
        return Some("version");
    }
    if one.members != other.members {
        return Some("number of members");
    }
    if one.schema != other.schema {
        return Some("schema");
    }
    None
}

// The first file that is no flight, or is unlike the first.
fn why_unlike<'a, 'b>(alloc: Global, names: &[&'a str], texts: &'b [String]) -> Option<Cause<'a>> {
    let mut first: Option<(Name<'a>, Heading<'b>)> = None;
    for (name, text) in names.iter().zip(texts) {
        let file = Name::Given(*name);
        let tried = "reading the flight";
        let heading = match find_heading(alloc, text.as_str()) {
            Ok(heading) => heading,
            Err(found) => return Some(Cause { file, tried, found }),
        };
        let Some((other, one)) = first else {
            first = Some((file, heading));
            continue;
        };
        if let Some(part) = unlike(&one, &heading) {
            let found = Found::Unlike { part, other };
            return Some(Cause { file, tried, found });
        }
    }
    None
}

fn node_of(text: &String) -> Option<u8> {
    match head(text.as_bytes()) {
        Ok((heading, _)) => Some(heading.node),
        Err(_) => None,
    }
}

fn members_of(texts: &[String]) -> u8 {
    match texts.first() {
        Some(text) => match head(text.as_bytes()) {
            Ok((heading, _)) => heading.members,
            Err(_) => 0,
        },
        None => 0,
    }
}

// The files of a node: the first, and the second.
fn files_of<'a>(
    names: &[&'a str],
    texts: &[String],
    node: u8,
) -> (Option<Name<'a>>, Option<Name<'a>>) {
    let mut first = None;
    for (name, text) in names.iter().zip(texts) {
        if node_of(text) != Some(node) {
            continue;
        }
        if first.is_some() {
            return (first, Some(Name::Given(*name)));
        }
        first = Some(Name::Given(*name));
    }
    (first, None)
}

// The first node that has no file, or has two.
fn why_not_each<'a>(names: &[&'a str], texts: &[String]) -> Option<Cause<'a>> {
    let tried = "judging the flights of a group";
    for node in 1..=members_of(texts) {
        match files_of(names, texts, node) {
            (Some(other), Some(file)) => {
                let found = Found::SameNode { node, other };
                return Some(Cause { file, tried, found });
            }
            (None, _) => {
                let file = Name::Given(*names.first()?);
                let found = Found::NoNode(node);
                return Some(Cause { file, tried, found });
            }
            _ => {}
        }
    }
    None
}

/// Why the texts of the files of these names are not the flights of a group, one of each node: the first file that is no
/// flight, or has another version, number of members or schema than the first, or the first node that has two files or
/// none. None where they are.
pub fn why_no_group<'a>(alloc: Global, names: &[&'a str], texts: &[String]) -> Option<Cause<'a>> {
    why_unlike(alloc, names, texts).or_else(|| why_not_each(names, texts))
}
