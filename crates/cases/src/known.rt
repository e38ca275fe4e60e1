use crate::tally::Tally;
use anyhow::Context;
use std::alloc::Global;
use std::fs;

// Cases whose answers are known, in a folder whose list names them.
#[derive(Clone, Copy)]
pub struct Known<'a> {
    pub folder: &'a str,
    // the endings of the two files of a case: what is asked, and what has to be answered
    pub asks: &'a str,
    pub answers: &'a str,
}

impl Known<'_> {
    // A file of a case.
    fn read(&self, rt: &HostRuntime, name: &str, ending: &str) -> anyhow::Result<Vec<u8>> {
        let folder = self.folder;
        let path = format!(in rt.alloc(); "{folder}/{name}.{ending}")?;
        Ok(fs::read(rt, path.as_str())?)
    }

    // Tries each case by its two files, names those that are not as they should be, and says how many are
    // and how many are not. A case of which nothing is to be said is not counted.
    fn tried<F: FnMut(Global, &[u8], &[u8]) -> anyhow::Result<Option<bool>>>(
        &self,
        rt: &HostRuntime,
        title: &str,
        should_agree: bool,
        mut agrees: F,
    ) -> anyhow::Result<Tally>
        requires { F.IsAlwaysCallable agrees }
    {
        let heap = rt.alloc();
        let folder = self.folder;
        let names = fs::read_to_string(rt, format!(in heap; "{folder}.list")?.as_str())?;
        let mut tally = Tally::NONE;
        for name in names.as_str().lines() {
            let asked = self.read(rt, name, self.asks)?;
            let answers = self.read(rt, name, self.answers)?;
            let outcome = agrees(heap, asked.as_slice(), answers.as_slice());
            let Some(same) = outcome.context(format_args!("{title}: {name}"))? else {
                continue;
            };
            if same != should_agree {
                let told = if same { "agrees" } else { "differs" };
                println!(rt; "{title}: {name} {told}")?;
            }
            tally.count(same);
        }
        Ok(tally)
    }

    // Says of how many cases the answers agree with ours.
    pub fn compare<F: FnMut(Global, &[u8], &[u8]) -> anyhow::Result<Option<bool>>>(
        &self,
        rt: &HostRuntime,
        title: &str,
        agrees: F,
    ) -> anyhow::Result<()>
        requires { F.IsAlwaysCallable agrees }
    {
        let tally = self.tried(rt, title, true, agrees)?;
        println!(rt; "{title}: {tally}")?;
        Ok(())
    }

    // Says how many answers, wrong on purpose, are told apart from ours.
    pub fn tell_apart<F: FnMut(Global, &[u8], &[u8]) -> anyhow::Result<Option<bool>>>(
        &self,
        rt: &HostRuntime,
        title: &str,
        agrees: F,
    ) -> anyhow::Result<()>
        requires { F.IsAlwaysCallable agrees }
    {
        let Tally { agree, differ } = self.tried(rt, title, false, agrees)?;
        println!(rt; "{title}: {differ} told apart, {agree} not")?;
        Ok(())
    }
}
