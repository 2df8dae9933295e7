// A watch that keeps the shortest of several times.
use std::time::Instant;

#[derive(Drop)]
pub(crate) struct Watch {
    shortest: u64,
}

impl Watch {
    pub(crate) fn new() -> Self {
        Watch { shortest: u64::MAX }
    }

    // What the work comes to, with its time counted in.
    pub(crate) fn time<T: Drop, F: FnOnce() -> T>(
        &mut self,
        rt: &HostRuntime,
        work: F,
    ) -> anyhow::Result<T>
        requires { F.pre work }
    {
        let began = Instant::now(rt)?;
        let result = work();
        let nanos = u64::try_from(began.elapsed(rt)?.as_nanos()).unwrap_or(u64::MAX);
        self.shortest = self.shortest.min(nanos);
        Ok(result)
    }

    // So much in the shortest time, as an amount a second.
    pub(crate) fn rate(&self, amount: u64) -> u128 {
        u128::from(amount) * 1_000_000_000 / u128::from(self.shortest.max(1))
    }
}
