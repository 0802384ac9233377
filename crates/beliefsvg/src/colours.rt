//! Colours of versions.
use beliefs::picture::{Picture, Version};
use std::alloc::{AllocError, Global};
use svgparts::Parts;

/// How versions are coloured.
#[derive(Clone, Copy, PartialEq, Eq)]
pub(crate) enum Kind {
    // A hue for each combination of values.
    Hue,
    // A step of a ramp by a single number.
    Ramp,
    // All alike.
    Plain,
}

// How many steps a ramp has.
pub(crate) const STEPS: usize = 7;

// Of each hue the bar, the ground of a version that is believed, and that of one that is past, on a light page and on a dark
// one: those of Okabe and Ito, in an order in which neighbours differ most to the colour-blind.
const HUES: [[&str; 6]; 6] = [
    [
        "#00589b", "#cfe5f5", "#edf5fb", "#4593d8", "#173f5c", "#18252f",
    ],
    [
        "#b97700", "#fbe3b5", "#fdf5e4", "#f0b23d", "#574010", "#292417",
    ],
    [
        "#00986e", "#c8ebdf", "#ebf7f3", "#74e8c4", "#0f4a3a", "#15282a",
    ],
    [
        "#a8457f", "#f5d9e8", "#fbf0f6", "#c86aa8", "#552a42", "#281f2a",
    ],
    [
        "#b84a00", "#fbd7c2", "#fdf0e8", "#f58b4a", "#5a2c11", "#2a201c",
    ],
    [
        "#3a97c9", "#d7eef9", "#f0f8fc", "#a9dcfa", "#20495d", "#1a2830",
    ],
];

const RAMP: [[&str; 6]; STEPS] = [
    [
        "#e6f1fa", "#e6f1fa", "#f4f9fd", "#1b2833", "#1b2833", "#171f26",
    ],
    [
        "#d4e7f7", "#d4e7f7", "#ecf4fb", "#1c3244", "#1c3244", "#18232e",
    ],
    [
        "#c2ddf3", "#c2ddf3", "#e4f0fa", "#1c3c55", "#1c3c55", "#182836",
    ],
    [
        "#b0d4f0", "#b0d4f0", "#dbecf8", "#1d4666", "#1d4666", "#182c3d",
    ],
    [
        "#9dcaed", "#9dcaed", "#d3e7f7", "#1e4f77", "#1e4f77", "#183045",
    ],
    [
        "#8bc0e9", "#8bc0e9", "#cbe3f5", "#1e5988", "#1e5988", "#18354d",
    ],
    [
        "#79b6e6", "#79b6e6", "#c3def4", "#1f6399", "#1f6399", "#193954",
    ],
];

const PLAIN: [[&str; 6]; 1] = [[
    "#70777f", "#e6e9ec", "#f4f5f6", "#98a1ab", "#3a414a", "#1f242b",
]];

/// Which colour each combination of values has.
#[derive(Drop)]
pub(crate) struct Colours {
    pub(crate) kind: Kind,
    // The combinations, in the order in which they were first believed.
    seen: Vec<Vec<String>>,
    // The least and the greatest number, of a ramp.
    pub(crate) low: i64,
    pub(crate) high: i64,
}

// The versions of a picture, in the order of their first instants and days.
pub(crate) fn in_order<'a>(
    alloc: Global,
    picture: &'a Picture,
) -> Result<Vec<&'a Version>, AllocError> {
    let mut keys = Vec::new(alloc);
    for (at, version) in picture.versions.iter().enumerate() {
        keys.push((version.since, version.start, at))?;
    }
    keys.sort_unstable();
    let mut order = Vec::new(alloc);
    for (_, _, at) in &keys {
        if let Some(version) = picture.versions.get(*at) {
            order.push(version)?;
        }
    }
    Ok(order)
}

fn seen_in(alloc: Global, pictures: &[Picture]) -> Result<Vec<Vec<String>>, AllocError> {
    let mut seen = Vec::new(alloc);
    for picture in pictures {
        for version in in_order(alloc, picture)? {
            if place_in(seen.as_slice(), version.values.as_slice()).is_none() {
                seen.push(version.values.clone()?)?;
            }
        }
    }
    Ok(seen)
}

fn place_in(seen: &[Vec<String>], values: &[String]) -> Option<usize> {
    for (at, other) in seen.iter().enumerate() {
        if other.as_slice() == values {
            return Some(at);
        }
    }
    None
}

fn number_in(values: &[String]) -> Option<i64> {
    match values {
        [value] => value.as_str().parse::<i64>().ok(),
        _ => None,
    }
}

pub(crate) fn colours_of(alloc: Global, pictures: &[Picture]) -> Result<Colours, AllocError> {
    let seen = seen_in(alloc, pictures)?;
    let mut kind = if seen.len() <= HUES.len() {
        Kind::Hue
    } else {
        Kind::Ramp
    };
    let mut low = i64::MAX;
    let mut high = i64::MIN;
    for values in &seen {
        match number_in(values) {
            Some(number) => {
                low = low.min(number);
                high = high.max(number);
            }
            None if kind == Kind::Ramp => kind = Kind::Plain,
            None => {}
        }
    }
    Ok(Colours {
        kind,
        seen,
        low,
        high,
    })
}

impl Colours {
    /// The colour of these values.
    pub(crate) fn of(&self, values: &[String]) -> usize {
        match self.kind {
            Kind::Hue => place_in(self.seen.as_slice(), values).unwrap_or(0),
            Kind::Ramp => match number_in(values) {
                Some(number) => self.step_of(number),
                None => 0,
            },
            Kind::Plain => 0,
        }
    }

    // The step of a number between the least and the greatest.
    fn step_of(&self, number: i64) -> usize {
        let above = number.abs_diff(self.low);
        let span = self.high.abs_diff(self.low);
        let steps = match above.checked_mul(7) {
            Some(product) => product / span.saturating_add(1),
            None => above / (span / 7).saturating_add(1),
        };
        (steps as usize).min(STEPS - 1)
    }

    // How many colours there are.
    fn count(&self) -> usize {
        match self.kind {
            Kind::Hue => self.seen.len(),
            Kind::Ramp => STEPS,
            Kind::Plain => 1,
        }
    }

    /// The rules of the grounds of versions: u of one that is believed, p of one that is past, b of the bar on the left.
    pub(crate) fn put_style(&self, parts: &mut Parts) -> Result<(), AllocError> {
        for at in 0..self.count() {
            put_rules(self.kind, at, 0, parts)?;
        }
        parts.raw("@media (prefers-color-scheme:dark){")?;
        for at in 0..self.count() {
            put_rules(self.kind, at, 3, parts)?;
        }
        parts.raw("}")
    }
}

// A colour: of which kind, the so many-th, and for what.
fn colour(kind: Kind, at: usize, place: usize) -> &'static str {
    let own = match kind {
        Kind::Hue => HUES.get(at).copied(),
        Kind::Ramp => RAMP.get(at).copied(),
        Kind::Plain => PLAIN.get(at).copied(),
    };
    match own {
        Some(own) => own.get(place).copied().unwrap_or(""),
        None => "",
    }
}

// The three rules of a colour, of a light page or from place 3 on of a dark one.
fn put_rules(kind: Kind, at: usize, first: usize, parts: &mut Parts) -> Result<(), AllocError> {
    for (place, name) in [".b", ".u", ".p"].iter().enumerate() {
        parts.raw(name)?;
        parts.count(at)?;
        parts.raw("{fill:")?;
        parts.raw(colour(kind, at, first.saturating_add(place)))?;
        parts.raw("}")?;
    }
    Ok(())
}
