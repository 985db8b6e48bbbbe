// The options of `spl run` and `spl trace`: the first words of the store, and a limit of steps.
use anyhow::anyhow;
use base::refusal::Refusal;
use machine::fault::SessionFault;
use report::fields::{Problem, number, words};
use std::alloc::Global;

/// The words that a run begins with, and its limit.
#[derive(Drop)]
pub struct Settings {
    // the words of the first cells; the other cells begin with 0
    words: Vec<u16>,
    /// The limit of steps.
    pub limit: u64,
}

impl Settings {
    /// Reads options, each a name and a value. Without the option the limit is `limit`. If an option is unknown,
    /// has no value or has a wrong one, prints so and fails.
    pub fn of(rt: &HostRuntime, options: &[String], limit: u64) -> anyhow::Result<Settings> {
        let mut settings = Settings {
            words: Vec::new(rt.alloc()),
            limit,
        };
        let (pairs, rest) = options.as_chunks::<2>();
        for [name, value] in pairs {
            let name = name.as_str();
            if let Err(problem) = settings.set(name, value.as_bytes()) {
                println!(rt; "{name}: {problem}")?;
                return Err(anyhow!("an option is no good"));
            }
        }
        if let [name, ..] = rest {
            println!(rt; "{name}: an option has no value")?;
            return Err(anyhow!("an option is no good"));
        }
        Ok(settings)
    }

    fn set(&mut self, name: &str, value: &[u8]) -> Result<(), Problem> {
        match name {
            "--cells" => words(value, &mut self.words),
            "--limit" => {
                self.limit = number(value)? as u64;
                Ok(())
            }
            _ => Err(Problem::NotRequest("there is no such option")),
        }
    }

    /// Passes unless the limit is 0 steps. Then it prints the refusal 33, as a session would answer it, and fails.
    pub fn judge(&self, rt: &HostRuntime, path: &str) -> anyhow::Result<()> {
        if self.limit > 0 {
            return Ok(());
        }
        let fault = SessionFault::NoSteps;
        let Refusal { place, number } = fault.into();
        println!(rt; "{path}: refused with {number} at {place}: {fault}")?;
        Err(anyhow!("the run is refused"))
    }

    /// Answers a store of `cells` cells with the words of the option in front. Fails where these are more than the
    /// cells, and where there is too little memory.
    pub fn store(&self, heap: Global, cells: u16) -> anyhow::Result<Vec<u16>> {
        let mut list = Vec::from_slice(heap, self.words.as_slice())?;
        if list.len() > cells as usize {
            return Err(anyhow!("there are more words than the routine has cells"));
        }
        list.resize(cells as usize, 0)?;
        Ok(list)
    }
}
