// How many vectors of each kind came out as expected.
use anyhow::anyhow;
use std::alloc::Global;
use std::collections::BTreeMap;

#[derive(Drop)]
pub(crate) struct Tally {
    agreed: BTreeMap<String, u64>,
    differing: u64,
}

impl Tally {
    pub(crate) fn new(heap: Global) -> Tally {
        Tally {
            agreed: BTreeMap::new(heap),
            differing: 0,
        }
    }

    /// Counts a line by its kind of vector, or names it where it has none, since it differs.
    pub(crate) fn note(
        &mut self,
        rt: &HostRuntime,
        line: &str,
        agreed: Option<String>,
    ) -> anyhow::Result<()> {
        match agreed {
            Some(kind) => {
                let count = self.agreed.entry(kind)?.or_insert(0);
                *count = count.saturating_add(1);
            }
            None => {
                println!(rt; "differs: {line}")?;
                self.differing = self.differing.saturating_add(1);
            }
        }
        Ok(())
    }

    /// Prints the counts; an error where any line differed.
    pub(crate) fn report(&self, rt: &HostRuntime) -> anyhow::Result<()> {
        for (kind, count) in &self.agreed {
            println!(rt; "{kind}: {count} as expected")?;
        }
        if self.differing > 0 {
            return Err(anyhow!("vectors differ"));
        }
        Ok(())
    }
}
