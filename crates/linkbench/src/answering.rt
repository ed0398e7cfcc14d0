// Lines from standard input, each answered by a line.
use answers::wrapping::{Answered, answer};
use cipher::Cipher;
use mode::hbs::Hbs;
use multiplier::{Doubling, Multiplier, Table};
use named::multiplier_name::MultiplierName;
use named::task::Task;
use std::io::{BufRead, BufReader};
use std::marker::PhantomData;

/// Lines to answer as requests of one form, over the multiplier that is named.
#[derive(Drop)]
pub(crate) struct Answering<'a, R> {
    rt: &'a HostRuntime,
    multiplier: MultiplierName,
    form: PhantomData<R>,
}

impl<'a, R> Answering<'a, R> {
    pub(crate) fn new(rt: &'a HostRuntime, multiplier: MultiplierName) -> Answering<'a, R> {
        Answering {
            rt,
            multiplier,
            form: PhantomData,
        }
    }
}

impl<R: Answered> Task for Answering<'_, R> {
    type Outcome = anyhow::Result<()>;

    // what is printed stands in no clause
    ghost comes = { λ _ _ _. Unit {0} };

    fn with<C: Cipher + Drop>(self, cipher: C) -> anyhow::Result<()> {
        match self.multiplier {
            MultiplierName::Doubling => {
                answer_lines::<R, C, _>(self.rt, Hbs::new(cipher, Doubling::new()))
            }
            MultiplierName::Table => {
                answer_lines::<R, C, _>(self.rt, Hbs::new(cipher, Table::new()))
            }
        }
    }
}

fn answer_lines<R: Answered, C: Cipher + Drop, M: Multiplier + Drop>(
    rt: &HostRuntime,
    mut hbs: Hbs<C, M>,
) -> anyhow::Result<()> {
    let lines = BufReader::new(rt.alloc(), rt.stdin())?.split(rt.alloc(), b'\n');
    for (number, line) in (1..u64::MAX).zip(lines) {
        let answer = answer::<R, C, M>(rt.alloc(), &mut hbs, number, &line?)?;
        println!(rt; "{answer}")?;
    }
    Ok(())
}
