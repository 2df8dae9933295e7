// Answers as lines.
use deck::Refusal;

pub(crate) fn show_refusal(log: &mut String, refusal: Refusal) -> anyhow::Result<()> {
    write!(log, "refused {refusal}")?;
    if let Refusal::Unlocated(unlocated) = refusal {
        let found = unlocated.found;
        write!(log, ", found on {} at {}", found.on, found.at)?;
        if let Some(unsound) = unlocated.unsound {
            let place = unsound.place;
            write!(
                log,
                ", unsound on {} at {}: {}",
                place.on, place.at, unsound.cause
            )?;
        }
    }
    writeln!(log, "")?;
    Ok(())
}

// What was done, with the number that it was answered.
pub(crate) fn show_number(
    log: &mut String,
    done: &str,
    answer: Result<u32, Refusal>,
) -> anyhow::Result<()> {
    match answer {
        Ok(number) => {
            writeln!(log, "{done} {number}")?;
            Ok(())
        }
        Err(refusal) => show_refusal(log, refusal),
    }
}
