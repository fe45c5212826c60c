//! Colours of lines on standard output and standard error.
use cli_options::Color;
use std::env;
use std::io::IsTerminal;

/// Whether lines are coloured, on each of the two output streams.
#[derive(Clone, Copy)]
pub struct Coloring {
    /// Whether lines on standard output are coloured.
    pub out: bool,
    /// Whether lines on standard error are coloured.
    pub err: bool,
}

impl Coloring {
    ghost use Rattle.std.specs.Prelude.{◌≡◌, false, true};
    ghost use Rattle.cli_options.specs.declared.command_options.Color.TheVariants.{Always, Never};

    /// Colours on neither stream.
    pub const NOWHERE: Coloring = Coloring {
        out: false,
        err: false,
    };

    /// Returns which streams are coloured. `Auto` colours the streams that are terminals, unless the environment variable
    /// `NO_COLOR` is set and not empty.
    pub fn asked(rt: &HostRuntime, color: Color) -> Coloring
        ensures always { color ≡ Always → result ≡ record { out = true; err = true } }
        ensures never { color ≡ Never → result ≡ record { out = false; err = false } }
    {
        match color {
            Color::Always => Coloring {
                out: true,
                err: true,
            },
            Color::Never => Coloring::NOWHERE,
            Color::Auto => {
                let wanted = !is_unwanted(rt);
                Coloring {
                    out: wanted && rt.stdout().is_terminal(),
                    err: wanted && rt.stderr().is_terminal(),
                }
            }
        }
    }
}

// Returns whether `NO_COLOR` in the environment excludes colours.
fn is_unwanted(rt: &HostRuntime) -> bool {
    match env::var(rt, "NO_COLOR") {
        Ok(value) => !value.is_empty(),
        Err(_) => false,
    }
}
