//! Prints the structure of MXF files: packets of SMPTE ST 336, laid as ST 377-1 says.
#![tactic(auto)]

mod answered;
mod program;

use mxf_watching::Screen;
use std::io::IsTerminal;
use std::process::ExitCode;

fn main(rt: HostRuntime) -> ExitCode {
    let screen = Screen::of(rt.stderr().is_terminal());
    ExitCode::from(program::run(&rt, screen).status())
}
