//! What standard error is.
ghost use Rattle.std.specs.Prelude.{◌≡◌, ◌↔◌, IsTrue};
ghost use Rattle.mxf_watching.specs.declared.screen.Screen.TheVariants.{Terminal};

/// What standard error is.
#[derive(Clone, Copy, PartialEq, Eq)]
pub enum Screen {
    Terminal,
    /// A file, a pipe or a device, to which nothing is told of the reading.
    Other,
}

impl Screen {
    /// What standard error is, by whether it is a terminal.
    pub fn of(is_terminal: bool) -> Screen
        ensures { IsTrue is_terminal ↔ (result ≡ Terminal) }
    {
        if is_terminal {
            Screen::Terminal
        } else {
            Screen::Other
        }
    }
}
