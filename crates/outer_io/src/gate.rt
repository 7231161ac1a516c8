/// What a worker passes before and after each command, so that a test can hold one back. It may wait.
pub trait Gate {
    fn before(&self, job: u16, line: u32);

    fn after(&self, job: u16, line: u32);
}
