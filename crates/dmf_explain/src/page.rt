//! The help on a terminal, which names the manual page only if it is installed.
use std::io::IsTerminal;
use std::rt::HostRuntime;
use std::{env, fs};

/// The last sentence of a help text.
const SENTENCE: &str = "man dmf has the formats.\n";

/// A help text without its last sentence and the blanks before it, if no manual page is found. `None` if the text stays as it is.
pub fn help_without_page<'a>(rt: &HostRuntime, text: &'a str) -> Option<&'a str> {
    let front = text.strip_suffix(SENTENCE)?;
    if rt.stdout().is_terminal() && !has_page(rt) {
        Some(front.trim_end())
    } else {
        None
    }
}

/// Whether the manual page lies where `man` looks, or beside the program.
fn has_page(rt: &HostRuntime) -> bool {
    is_below(rt, "/usr/local/share/man")
        || is_below(rt, "/usr/share/man")
        || is_in_path(rt)
        || is_beside(rt)
}

/// Whether it lies below a folder of `MANPATH`.
fn is_in_path(rt: &HostRuntime) -> bool {
    let Ok(path) = env::var(rt, "MANPATH") else {
        return false;
    };
    for folder in path.as_str().split(':') {
        if is_below(rt, folder) {
            return true;
        }
    }
    false
}

/// Whether it lies beside the program, as `./install` puts it.
fn is_beside(rt: &HostRuntime) -> bool {
    let Ok(program) = env::current_exe(rt) else {
        return false;
    };
    let Some((folder, _)) = program.as_str().rsplit_once('/') else {
        return false;
    };
    match format!(in rt.alloc(); "{folder}/../share/man") {
        Ok(folder) => is_below(rt, folder.as_str()),
        Err(_) => false,
    }
}

/// Whether the page lies below a folder of manual pages.
fn is_below(rt: &HostRuntime, folder: &str) -> bool {
    match format!(in rt.alloc(); "{folder}/man1/dmf.1") {
        Ok(page) => matches!(fs::exists(rt, page.as_str()), Ok(true)),
        Err(_) => false,
    }
}
