// The lines of answers. Those of `station` stand there: it prints refusals of its own, and goes when the list of files comes.
use deck::Refusal;

// What was done, with the number that it was answered.
pub(crate) fn print_number(
    rt: &HostRuntime,
    done: &str,
    answer: Result<u32, Refusal>,
) -> anyhow::Result<()> {
    match answer {
        Ok(number) => println!(rt; "{done} {number}")?,
        Err(refusal) => println!(rt; "refused {refusal}")?,
    }
    Ok(())
}

pub(crate) fn print_flaw(
    rt: &HostRuntime,
    answer: Result<(), tape::Refusal>,
) -> anyhow::Result<()> {
    match answer {
        Ok(()) => println!(rt; "flaw")?,
        Err(refusal) => println!(rt; "refused {refusal}")?,
    }
    Ok(())
}
