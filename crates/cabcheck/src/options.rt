use anyhow::{anyhow, bail};
use std::env;

// What a run is asked to do.
#[derive(Drop)]
pub struct Options {
    pub tsv: bool,
    // None is standard input.
    pub list: Option<String>,
    // The list of the pulse cab, where it is another one.
    pub second: Option<String>,
}

// What a command line asks for.
#[derive(Drop)]
pub enum Asked {
    Help,
    Version,
    Run(Options),
}

// What the command line of this process asks for.
pub fn read_options(rt: &HostRuntime) -> anyhow::Result<Asked> {
    let mut words = env::args(rt)?;
    let _program = words.next();
    options_of(words)
}

// What the words behind the program's name ask for.
fn options_of(mut words: env::Args) -> anyhow::Result<Asked> {
    let mut tsv = false;
    let mut list = None;
    let mut second = None;
    while let Some(word) = words.next() {
        match word.as_str() {
            "--help" | "-h" => return Ok(Asked::Help),
            "--version" => return Ok(Asked::Version),
            "--tsv" => tsv = true,
            "--second" => {
                let name = words
                    .next()
                    .ok_or_else(|| anyhow!("--second wants the name of a list"))?;
                second = Some(name);
            }
            name if name != "-" && name.starts_with('-') => {
                bail!("no option {name}; --help lists what there is")
            }
            name if list.is_some() => bail!("one list at a time, and {name} is another"),
            _ => list = Some(word),
        }
    }
    Ok(Asked::Run(Options { tsv, list, second }))
}
