use std::io::Read;
use std::{fs, io};

// The whole of a file, or of standard input for `-`.
pub fn read_source(rt: &HostRuntime, name: &str) -> io::Result<Vec<u8>> {
    if name == "-" {
        let mut text = Vec::new(rt.alloc());
        rt.stdin().read_to_end(&mut text)?;
        return Ok(text);
    }
    fs::read(rt, name)
}
