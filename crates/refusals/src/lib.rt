//! What a refusal is known by outside: its number, and the layer that refuses.
#![tactic(auto)]

ghost use Rattle.std.specs.Prelude.{◌≡◌, Some};
ghost use Rattle.refusals.specs.Layers.{layer_number, layer_text};

use std::fmt;

/// The layer that refuses.
#[derive(Clone, Copy, Debug, PartialEq, Eq)]
pub enum Layer {
    /// The characters of a line.
    Line,
    /// What a line says.
    Frame,
    Check,
    Ordering,
}

impl From<Layer> for u8 {
    ghost from_gives = { λ layer number. number ≡ layer_number layer };

    fn from(layer: Layer) -> u8 {
        match layer {
            Layer::Line => 1,
            Layer::Frame => 2,
            Layer::Check => 3,
            Layer::Ordering => 4,
        }
    }
}

impl fmt::Display for Layer {
    ghost output = { λ layer. Some (layer_text layer) };

    fn fmt<W: fmt::Write>(&self, f: &mut fmt::Formatter<W>) -> fmt::Result {
        f.write_str(match self {
            Layer::Line => "the line",
            Layer::Frame => "the frame",
            Layer::Check => "the check",
            Layer::Ordering => "the ordering",
        })
    }
}

/// The number of a refusal, and the layer that refuses.
// Each error gives its own by a method `code`, and not by `From`: it is not what the error is, but what it is known by.
#[derive(Clone, Copy, Debug, PartialEq, Eq)]
pub struct Code {
    pub number: u8,
    pub layer: Layer,
}
