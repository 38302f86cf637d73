/// What a caller does around each step of a job, and when it has ended: it may wait, or watch. It changes nothing of the run.
pub trait Gate {
    /// Called before a step of the job, outside the lock. `step` is the number of entries in the job's log.
    fn before(&self, job: usize, step: usize);

    /// Called as soon as the desk's lock is held. A gate that then steps at the same desk never returns.
    fn within(&self, job: usize);

    /// Called after the step of the job, outside the lock, with the same numbers as before it.
    fn after(&self, job: usize, step: usize);

    /// Called once the job has ended, outside the lock: it is finished or stopped.
    fn ended(&self, job: usize);
}
