ghost use Rattle.plain_runs.specs.Recording.{Recording, state_of};
ghost use Rattle.plain_runs.specs.Run.{IsRun};
ghost use Rattle.plain_runs.specs.Step.{MayCome, after};
ghost use Rattle.std.specs.Prelude.{◌≡◌, [], ◌++◌, ◌∷◌, OnOk, OnErr};

use plain_orders::{Act, Layout, Trail};
use std::alloc::{AllocError, Global};
use std::marker::Model;

/// Writes a trail that is a run of the plain machine, act by act. Contracts see it as its layout and acts.
#[derive(Drop)]
pub struct Recorder {
    layout: Layout,
    trail: Trail,
}

impl Model for Recorder {
    ghost use Rattle.plain_runs.specs.Recording.{Recording};
    ghost use Rattle.plain_runs.specs.Run.{IsRun};

    ghost Value = { Recording };

    ghost view = { λ r. record { layout = r.layout; acts = r.trail } };

    ghost invariant = { λ r. IsRun r.layout r.trail };
}

impl Recorder {
    pub fn new(alloc: Global, layout: Layout) -> Recorder
        ensures layout { result.layout ≡ layout }
        ensures acts { result.acts ≡ [] }
    {
        Recorder {
            layout,
            trail: Trail::new(alloc),
        }
    }

    /// Writes down an act that may come; without memory for it all stays as it was.
    pub fn note(&mut self, act: Act) -> Result<(), AllocError>
        requires { MayCome self.old.layout (state_of self.old) act }
        ensures layout { self.new.layout ≡ self.old.layout }
        ensures ok { OnOk result (self.new.acts ≡ self.old.acts ++ act ∷ []) }
        ensures state { OnOk result (state_of self.new ≡ after self.old.layout (state_of self.old) act) }
        ensures err { OnErr result (self.new ≡ self.old) }
    {
        self.trail.push(act)?;
        Ok(())
    }

    /// The acts so far.
    pub fn acts(&self) -> &[Act]
        ensures run { IsRun self.now.layout result.now }
        ensures value { result.now ≡ self.now.acts }
    {
        self.trail.as_slice()
    }

    pub fn layout(&self) -> &Layout
        ensures { result.now ≡ self.now.layout }
    {
        &self.layout
    }

    /// The layout and the trail that was written.
    pub fn into_parts(self) -> (Layout, Trail)
        ensures run { IsRun result.0 result.1 }
        ensures layout { result.0 ≡ self.layout }
        ensures acts { result.1 ≡ self.acts }
    {
        let Recorder { layout, trail } = self;
        (layout, trail)
    }
}

#[cfg(test)]
mod tests {
    use super::Recorder;
    use plain_orders::{Act, JobApps, Layout, Times};
    use std::alloc::AllocError;

    #[test]
    fn acts_are_written_down_in_order(rt: HostRuntime) -> Result<(), AllocError> {
        let alloc = rt.alloc();
        let times = Times {
            retry: 5,
            trouble: 60,
            recover: 1200,
            round: 60,
        };
        let layout = Layout {
            servers: 1,
            apps: 1,
            job_apps: JobApps::new(alloc),
            times,
        };
        let mut recorder = Recorder::new(alloc, layout);
        let noted = recorder.note(Act::Tick { time: 7 });
        assert!(rt; noted.is_ok());
        let first = match recorder.acts() {
            [Act::Tick { time }] => Some(*time),
            _ => None,
        };
        assert!(rt; first == Some(7));
        assert!(rt; recorder.layout().times == times);
        let (layout, trail) = recorder.into_parts();
        assert!(rt; layout.servers == 1);
        assert!(rt; trail.as_slice().len() == 1);
        Ok(())
    }
}
