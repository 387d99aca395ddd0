// What a run does, as its arguments say.
use censors::builtin::Builtin;
use std::env::Args;
use std::error::Error;
use std::str::FromStr;
use std::{env, fmt};

// Which secrets and questions are taken.
#[derive(Clone, Copy)]
pub(crate) enum Load {
    // secrets of a few facts, and questions that differ from place to place
    Usual,
    // secrets and questions for which the refusing censor has to test the most sheets
    Hardest,
}

// An argument is missing, or is none of the words that may stand there.
#[derive(Clone, Copy, Debug)]
pub(crate) struct Usage;

impl fmt::Display for Usage {
    fn fmt<W: fmt::Write>(&self, f: &mut fmt::Formatter<W>) -> fmt::Result {
        f.write_str(
            "cost usual|hardest refusing|lying|combined NAMES COUNTERPARTIES SECRETS QUESTIONS WORDS AMENDMENTS",
        )
    }
}

impl Error for Usage {}

impl FromStr for Load {
    type Err = Usage;

    fn from_str(word: &str) -> Result<Load, Usage> {
        match word {
            "usual" => Ok(Load::Usual),
            "hardest" => Ok(Load::Hardest),
            _ => Err(Usage),
        }
    }
}

#[derive(Clone, Copy)]
pub(crate) struct Plan {
    pub(crate) load: Load,
    pub(crate) censor: Builtin,
    pub(crate) names: usize,
    pub(crate) counterparties: usize,
    // of each counterparty
    pub(crate) secrets: usize,
    // of all counterparties together
    pub(crate) questions: usize,
    // in each question
    pub(crate) words: usize,
    pub(crate) amendments: usize,
}

impl Plan {
    pub(crate) fn from_args(rt: &HostRuntime) -> anyhow::Result<Plan> {
        let mut args = env::args(rt)?;
        let _program = args.next();
        Ok(Plan {
            load: next_word(&mut args)?.as_str().parse()?,
            censor: Builtin::try_from(next_word(&mut args)?.as_bytes()).map_err(|_| Usage)?,
            names: next_number(&mut args)?,
            counterparties: next_number(&mut args)?,
            secrets: next_number(&mut args)?,
            questions: next_number(&mut args)?,
            words: next_number(&mut args)?,
            amendments: next_number(&mut args)?,
        })
    }
}

fn next_number(args: &mut Args) -> anyhow::Result<usize> {
    Ok(next_word(args)?.as_str().parse()?)
}

fn next_word(args: &mut Args) -> Result<String, Usage> {
    args.next().ok_or(Usage)
}
