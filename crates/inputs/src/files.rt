// Where a program's texts come from.
ghost use Rattle.std.specs.Prelude.{◌≡◌, ◌<◌, IfOk, vec_len};
ghost use Rattle.inputs.specs.Sources.{source_name};

use anyhow::anyhow;
use std::io::Read;
use std::{env, fs, io};

// Standard input, or the file of a path.
#[derive(Drop)]
pub enum Source {
    Input,
    File(String),
}

impl Source {
    pub fn name(&self) -> &str
        ensures { result.now ≡ source_name self.now }
    {
        match self {
            Source::Input => "standard input",
            Source::File(path) => path.as_str(),
        }
    }

    pub fn read(&self, rt: &HostRuntime) -> anyhow::Result<Vec<u8>> {
        match self {
            Source::Input => Ok(read_input(rt)?),
            Source::File(path) => fs::read(rt, path.as_str()).map_err(|error| anyhow!(
                "{path}: {error}"
            )),
        }
    }
}

fn read_input(rt: &HostRuntime) -> io::Result<Vec<u8>> {
    let mut text = Vec::new(rt.alloc());
    rt.stdin().read_to_end(&mut text)?;
    Ok(text)
}

// Each file that the arguments name, or standard input where they name none.
pub fn sources(rt: &HostRuntime) -> io::Result<Vec<Source>>
    ensures { IfOk result (λ sources. 0 < vec_len sources) }
{
    let mut sources = Vec::new(rt.alloc());
    for path in env::args(rt)?.skip(1) {
        sources.push(Source::File(path))?;
    }
    if sources.is_empty() {
        sources.push(Source::Input)?;
    }
    Ok(sources)
}

#[cfg(test)]
mod tests {
    use super::*;
    use std::test::Fail;

    #[test]
    fn some_source(rt: HostRuntime) -> Result<(), Fail> {
        assert!(rt; !sources(&rt)?.is_empty());
        assert_eq!(rt; Source::Input.name(), "standard input");
        Ok(())
    }
}
