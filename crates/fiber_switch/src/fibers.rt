//! The fibers.
ghost use Rattle.std.specs.Prelude.{◌≡◌, IfOk, OnOk, is_some, slice_get};
ghost use Rattle.def_core.specs.Store.{object_at};
ghost use Rattle.def_calls.specs.Views as views;
ghost use Rattle.fiber_switch.specs.Switching as switching;
ghost use Rattle.vm_unwind.specs.Levels as seen;

use def_core::Cause;
use pair_table::PairTable;
use rb_value::ObjId;
use std::alloc::{AllocError, Global};
use vm_unwind::heap::Heap;
use vm_unwind::vm_frames::Frames;

/// Whether a fiber runs, waits for one that it resumed, or waits since it yielded; or has ended.
#[derive(Clone, Copy, Debug, PartialEq, Eq)]
pub enum State {
    Running,
    Resuming,
    Suspended,
    Ended,
}

/// A fiber that has begun: its object, which the root has none, its state, and the number of the fiber that resumed it.
#[derive(Clone, Copy, Debug)]
pub struct Fiber {
    pub object: Option<ObjId>,
    pub state: State,
    pub resumer: Option<usize>,
}

/// The fibers that have begun, by their numbers, which are those of their lines; the numbers by the objects; and the
/// number of the one that runs.
#[derive(Drop)]
pub struct Fibers {
    begun: Vec<Fiber>,
    numbers: PairTable<u64, u64>,
    running: usize,
}

/// What a resume comes to: a failure, a fiber that begins with its Proc, or one that goes on.
#[derive(Clone, Copy, Debug)]
pub enum Resumed {
    Refused(Cause),
    Begins(ObjId),
    Continues,
}

impl Fibers {
    /// The root alone, which runs.
    pub fn new(alloc: Global) -> Result<Fibers, AllocError>
        ensures { IfOk result (λ fibers. switching.of fibers ≡ switching.root_alone) }
    {
        let mut begun = Vec::new(alloc);
        begun.push(Fiber {
            object: None,
            state: State::Running,
            resumer: None,
        })?;
        Ok(Fibers {
            begun,
            numbers: PairTable::new(alloc),
            running: 0,
        })
    }

    /// The fibers that have begun.
    pub fn begun(&self) -> &[Fiber]
        ensures { result.now ≡ (switching.of self.now).begun }
    {
        &self.begun
    }

    /// The fiber that runs has another state, and no resumer or another one.
    fn set_running(&mut self, state: State, resumer: Option<usize>)
        ensures { switching.of self.new ≡ switching.running_set (switching.of self.old) state resumer }
    {
        if let Some(fiber) = self.begun.get_mut(self.running) {
            fiber.state = state;
            fiber.resumer = resumer;
        }
    }

    /// The number of the fiber that resumed the one that runs.
    fn resumer(&self) -> Option<usize>
        ensures { result ≡ switching.resumer_of (switching.of self.now) }
    {
        self.begun.get(self.running)?.resumer
    }

    /// Another fiber runs.
    fn run(&mut self, frames: &mut Frames, number: usize)
        ensures fibers { switching.of self.new ≡ switching.run (switching.of self.old) number }
        ensures lines { seen.of frames.new ≡ switching.line_run_in (seen.of frames.old) number
            (slice_get (switching.of self.old).begun number) }
    {
        if let Some(fiber) = self.begun.get_mut(number) {
            fiber.state = State::Running;
            self.running = number;
            frames.run_line(number);
        }
    }

    /// A fiber begins: it has a line without levels, which runs.
    fn begin(&mut self, frames: &mut Frames, object: ObjId) -> Result<(), AllocError>
        ensures fibers { OnOk result (switching.of self.new ≡ switching.began (switching.of self.old)
            (switching.next_line (seen.of frames.old)) object) }
        ensures lines { OnOk result (seen.of frames.new ≡ switching.lines_began (seen.of frames.old)
            (switching.of self.old) object) }
    {
        let number = frames.add_line()?;
        self.numbers.insert(object.0, number as u64)?;
        self.begun.push(Fiber {
            object: Some(object),
            state: State::Running,
            resumer: Some(self.running),
        })?;
        let resumer = self.resumer();
        self.set_running(State::Resuming, resumer);
        self.run(frames, number);
        Ok(())
    }

    /// What the resume of a fiber comes to that has begun.
    fn resume_begun(&mut self, frames: &mut Frames, number: usize) -> Resumed
        ensures answer { result ≡ switching.answer_in (slice_get (switching.of self.old).begun number) }
        ensures fibers { switching.of self.new ≡ switching.switched_in (switching.of self.old) number
            (slice_get (switching.of self.old).begun number) }
        ensures lines { seen.of frames.new ≡ switching.lines_switched_in (seen.of frames.old)
            (switching.of self.old) number
            (slice_get (switching.of self.old).begun number) }
    {
        let Some(fiber) = self.begun.get_mut(number) else {
            return Resumed::Refused(Cause::DeadFiber);
        };
        match fiber.state {
            State::Suspended => {
                fiber.resumer = Some(self.running);
                let resumer = self.resumer();
                self.set_running(State::Resuming, resumer);
                self.run(frames, number);
                Resumed::Continues
            }
            State::Running => Resumed::Refused(Cause::DoubleResume),
            State::Resuming => Resumed::Refused(Cause::DoubleResume),
            State::Ended => Resumed::Refused(Cause::DeadFiber),
        }
    }

    /// Resumes a fiber, whose line runs then. The levels of the one that runs all wait. Where memory runs out, what the
    /// machine keeps is lost.
    pub fn resume(
        &mut self,
        heap: &Heap,
        frames: &mut Frames,
        object: ObjId,
    ) -> Result<Resumed, AllocError>
        ensures answer { IfOk result (λ answer. answer ≡ switching.answer_to (switching.of self.old) object
            (views.fiber_of (object_at heap.now.store.objects object).kind)) }
        ensures fibers { OnOk result (switching.of self.new ≡ switching.resumed (switching.of self.old)
            (switching.next_line (seen.of frames.old)) object (views.fiber_of (object_at heap.now.store.objects object).kind)) }
        ensures lines { OnOk result (seen.of frames.new ≡ switching.lines_resumed (seen.of frames.old)
            (switching.of self.old) object (views.fiber_of (object_at heap.now.store.objects object).kind)) }
    {
        let Some((block, ended)) = heap.fiber_of(object) else {
            return Ok(Resumed::Refused(Cause::DeadFiber));
        };
        if ended {
            return Ok(Resumed::Refused(Cause::DeadFiber));
        }
        match self.numbers.get(&object.0).copied() {
            Some(number) => Ok(self.resume_begun(frames, number as usize)),
            None => {
                self.begin(frames, object)?;
                Ok(Resumed::Begins(block))
            }
        }
    }

    /// Yields to the fiber that resumed the one that runs; false where none did. It takes no memory.
    pub fn yield_back(&mut self, frames: &mut Frames) -> bool
        ensures there { result ≡ is_some (switching.resumer_of (switching.of self.old)) }
        ensures fibers { switching.of self.new ≡ switching.yielded (switching.of self.old)
            (switching.resumer_of (switching.of self.old)) }
        ensures lines { seen.of frames.new ≡ switching.lines_yielded (seen.of frames.old) (switching.of self.old)
            (switching.resumer_of (switching.of self.old)) }
    {
        match self.resumer() {
            Some(resumer) => {
                self.set_running(State::Suspended, None);
                self.run(frames, resumer);
                true
            }
            None => false,
        }
    }

    /// The object of the fiber that runs, which the root has none.
    fn object(&self) -> Option<ObjId>
        ensures { result ≡ switching.object_of (switching.of self.now) }
    {
        self.begun.get(self.running)?.object
    }

    /// Ends the fiber that runs, which has no levels any more: the one that resumed it runs. It gives false where none
    /// did. It takes no memory.
    pub fn end(&mut self, heap: &mut Heap, frames: &mut Frames) -> bool
        ensures there { result ≡ is_some (switching.resumer_of (switching.of self.old)) }
        ensures fibers { switching.of self.new ≡ switching.ended (switching.of self.old)
            (switching.resumer_of (switching.of self.old)) }
        ensures lines { seen.of frames.new ≡ switching.lines_ended (seen.of frames.old) (switching.of self.old)
            (switching.resumer_of (switching.of self.old)) }
        ensures heap { heap.new ≡ switching.heap_ended heap.old (switching.of self.old)
            (switching.resumer_of (switching.of self.old)) }
    {
        let ended = self.running;
        match self.resumer() {
            Some(resumer) => {
                if let Some(object) = self.object() {
                    heap.end_fiber(object);
                    self.numbers.remove(&object.0);
                }
                self.set_running(State::Ended, None);
                self.run(frames, resumer);
                frames.end_line(ended);
                true
            }
            None => false,
        }
    }
}
