// Where a day's file comes from: the file named by the first argument, or standard input where there is none.
use crate::trouble::Trouble;
use std::io::Read;
use std::{env, fs};

// The path that the arguments name, if they name one.
fn path(rt: &HostRuntime) -> Result<Option<String>, Trouble> {
    let mut args = env::args(rt).map_err(Trouble::Arguments)?.skip(1);
    match (args.next(), args.next()) {
        (path, None) => Ok(path),
        (_, Some(_)) => Err(Trouble::Usage),
    }
}

fn read_file(rt: &HostRuntime, path: String) -> Result<Vec<u8>, Trouble> {
    fs::read(rt, path.as_str()).map_err(|error| Trouble::File { path, error })
}

fn read_stdin(rt: &HostRuntime) -> Result<Vec<u8>, Trouble> {
    let mut bytes = Vec::new(rt.alloc());
    rt.stdin().read_to_end(&mut bytes).map_err(Trouble::Input)?;
    Ok(bytes)
}

// All bytes of the input.
pub(crate) fn read(rt: &HostRuntime) -> Result<Vec<u8>, Trouble> {
    match path(rt)? {
        Some(path) => read_file(rt, path),
        None => read_stdin(rt),
    }
}
