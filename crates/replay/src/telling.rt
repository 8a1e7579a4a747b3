// What was compared, and what was different.

// One run of a file: how many orders its lines tell of, and whether all of it is as expected.
use anyhow::anyhow;

#[derive(Clone, Copy)]
pub(crate) struct Replayed {
    pub(crate) orders: u32,
    pub(crate) same: bool,
}

#[derive(Clone, Copy, Default)]
pub(crate) struct Tally {
    files: u32,
    runs: u32,
    orders: u32,
    differences: u32,
}

impl Tally {
    pub(crate) fn one_file(&mut self) {
        self.files = self.files.saturating_add(1);
    }

    pub(crate) fn one_run(
        &mut self,
        rt: &HostRuntime,
        name: &str,
        replayed: Replayed,
    ) -> anyhow::Result<()> {
        self.runs = self.runs.saturating_add(1);
        self.orders = self.orders.saturating_add(replayed.orders);
        if !replayed.same {
            self.differences = self.differences.saturating_add(1);
            println!(rt; "different: {name}")?;
        }
        Ok(())
    }

    pub(crate) fn tell(self, rt: &HostRuntime) -> anyhow::Result<()> {
        let Tally {
            files,
            runs,
            orders,
            differences,
        } = self;
        println!(rt; "{files} files, {runs} runs, {orders} orders, {differences} differences")?;
        if differences > 0 {
            return Err(anyhow!("the board does not do what the corpus says"));
        }
        Ok(())
    }
}

// A damaged order has a line of its own that is no order's, and so has a file that is too long.
// The count stops at the largest number that it can be, as the sums of it do.
pub(crate) fn orders_told(text: &str) -> u32 {
    let orders = text
        .lines()
        .filter(|line| *line != "long" && !line.starts_with("?"))
        .count();
    u32::try_from(orders).unwrap_or(u32::MAX)
}
