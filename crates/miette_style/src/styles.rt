//! The styles that themes use.

use crate::style::{Color, Style};

pub(crate) const PLAIN: Style = Style {
    fg: None,
    bold: false,
    dimmed: false,
    italic: false,
    underline: false,
};

pub(crate) const DIMMED: Style = Style {
    dimmed: true,
    ..PLAIN
};

pub(crate) const CYAN: Style = Style {
    fg: Some(Color::Cyan),
    ..PLAIN
};

pub(crate) static RGB_HIGHLIGHTS: [Style; 3] = [
    Style {
        fg: Some(Color::Rgb(246, 87, 248)),
        ..PLAIN
    },
    Style {
        fg: Some(Color::Rgb(30, 201, 212)),
        ..PLAIN
    },
    Style {
        fg: Some(Color::Rgb(145, 246, 111)),
        ..PLAIN
    },
];

pub(crate) static ANSI_HIGHLIGHTS: [Style; 3] = [
    Style {
        fg: Some(Color::Magenta),
        bold: true,
        ..PLAIN
    },
    Style {
        fg: Some(Color::Yellow),
        bold: true,
        ..PLAIN
    },
    Style {
        fg: Some(Color::Green),
        bold: true,
        ..PLAIN
    },
];

pub(crate) static NO_HIGHLIGHTS: [Style; 1] = [PLAIN];
