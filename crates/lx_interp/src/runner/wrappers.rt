//! Wrappers: their calls, their lines, and the leaving of a frame.
ghost use Rattle.std.specs.Prelude.{◌≡◌, ◌≤◌, ◌<◌, ◌∷◌, OnOk, OnErr, IfOk, IsSome, Some, None, length, map, true};
ghost use Rattle.lx_model.specs.declared.request.Way.TheVariants.{Direct};
ghost use Rattle.lx_model.specs.declared.request.What.TheVariants as what;
ghost use Rattle.lx_model.specs.Next.{request};
ghost use Rattle.lx_images.specs.Image.{Asks, Code as Images, Wraps, after_leaving, frame_step, top as top_of, with_frames};
ghost use Rattle.lx_image_code.specs.declared.line.Line.TheVariants as line;
ghost use Rattle.lx_image_code.specs.Wrappers.{wrapper_lines};
ghost use Rattle.lx_frames.specs.Frames.{args_on, frame_of, frames_of, function_on, line_on, running_on, value_on};
ghost use Rattle.lx_frames.specs.Stack.{CanEnter, CanGoOn};
ghost use Rattle.lx_interp.specs.Lacks.{TopLacks};
ghost use Rattle.lx_interp.specs.Runner.{HasStayed, HasTaken, action_of, action_on, asked_by, events_left, is_enter, is_ret, poorer, thread_of, wrapper_on};

use super::Runner;
use lx_annot::expr::Env;
use lx_image_code::{Code, Line, Wrapper};
use lx_model::request::{Outcome, Request, Trap, Way, What};
use lx_words::{Items, Memory, Word, Words};

// Whether a line is the enter.
fn is_enter(line: Line) -> bool
    ensures { result ≡ is_enter line }
{
    matches!(line, Line::Enter)
}

// Whether there is a line, and it is the `ret`.
fn is_ret(line: Option<Line>) -> bool
    ensures { result ≡ is_ret line }
{
    matches!(line, Some(Line::Ret))
}

impl Runner {
    // A copy of the arguments of the wrapper on top.
    fn copied_args(&self) -> Result<Words, Memory>
        ensures { IfOk result (λ args. args ≡ args_on self.now.stack.top) }
    {
        let copy = Items::from_slice(self.alloc, self.stack.args())?;
        Ok(copy)
    }

    // The request for an action of the wrapper on top, before its body or behind it: from the caller to the callee, or back.
    fn action(&self, post: bool, index: u32, args: Words, value: &Option<Word>) -> Request
        ensures { result ≡ action_of self.now.stack.shadow.principals (function_on self.now.stack.top) args post index value.now }
    {
        let (callee, caller) = (self.stack.shadow.top(), self.stack.shadow.below_top());
        let (source, dest, ret) = if post {
            (callee, caller, *value)
        } else {
            (caller, callee, None)
        };
        Request {
            who: source,
            what: What::Perform {
                function: self.stack.function(),
                post,
                index,
                env: Env { args, ret },
                source,
                dest,
            },
        }
    }

    // The wrapper on top asks for an action, which costs a unit.
    fn perform(&mut self, post: bool, index: u32, value: &Option<Word>) -> Result<(), Memory>
        requires request { self.old.request ≡ None }
        ensures steps { OnOk result ((c : Images) → CanGoOn c self.old.stack self.old.stack.top → HasTaken c self.old self.new (action_on true (thread_of c self.old) (function_on self.old.stack.top) (args_on self.old.stack.top) post index value.now)) }
        ensures stays { OnErr result ((c : Images) → HasStayed c self.old self.new) }
        ensures top { OnErr result (self.new.stack.top ≡ self.old.stack.top) }
        ensures spares { events_left self.new ≤ events_left self.old }
    {
        if self.fuel == 0 {
            self.stop(&Outcome::Budget);
            return Ok(());
        }
        let copy = self.copied_args()?;
        self.fuel -= 1; // an action costs a unit
        self.marks = None;
        self.request = Some(self.action(post, index, copy, value));
        Ok(())
    }

    // The wrapper on top asks for the action that its line names, where the function has it.
    fn act(&mut self, code: &Code, post: bool, index: u32) -> Result<(), Memory>
        requires request { self.old.request ≡ None }
        requires line { line_on (frames_of code.now self.old.stack.top self.old.stack.below) ≡ Some (asked_by post index) }
        ensures steps { OnOk result (HasTaken code.now self.old self.new (frame_step code.now (thread_of code.now self.old) (frames_of code.now self.old.stack.top self.old.stack.below))) }
        ensures stays { OnErr result (HasStayed code.now self.old self.new) }
        ensures lacks { OnErr result (TopLacks code.now self.new.fuel self.new.stack.top) }
        ensures spares { events_left self.new ≤ events_left self.old }
    {
        let function = self.stack.function();
        if !code.program_code().has_action(function, post, index) {
            self.stop(&Outcome::Trapped(Trap::Unreachable));
            return Ok(());
        }
        self.stack.prepare_line(code)?;
        let value = self.stack.value();
        self.perform(post, index, &value)?;
        Ok(())
    }

    /// The frame on top is left: its caller goes on with the value, and a wrapper with what its call gave, or the call comes to its
    /// end.
    pub(super) fn leave(&mut self, code: &Code, value: &Option<Word>)
        ensures state { thread_of code.now self.new ≡ after_leaving value.now (map (frame_of code.now) self.old.stack.below.frames) (thread_of code.now self.old) }
        ensures number { self.new.thread ≡ self.old.thread }
        ensures calls { self.new.calls ≡ self.old.calls }
        ensures ended { self.new.endings ≡ self.old.endings }
        ensures fuel { self.new.fuel ≡ self.old.fuel }
        ensures marks { self.new.marks ≡ self.old.marks }
        ensures request { self.new.request ≡ self.old.request }
    {
        self.stack.top = self.stack.below.pop();
        match &mut self.stack.top {
            Some(frame) => frame.resume(code, value),
            None => {
                self.due = Some(Outcome::Returned(*value));
                self.stack.shadow.clear();
            }
        }
    }

    // The wrapper on top is left, with what its call gave.
    fn leave_wrapper(&mut self, code: &Code)
        ensures state { thread_of code.now self.new ≡ after_leaving (value_on self.old.stack.top) (map (frame_of code.now) self.old.stack.below.frames) (thread_of code.now self.old) }
        ensures number { self.new.thread ≡ self.old.thread }
        ensures calls { self.new.calls ≡ self.old.calls }
        ensures ended { self.new.endings ≡ self.old.endings }
        ensures fuel { self.new.fuel ≡ self.old.fuel }
        ensures marks { self.new.marks ≡ None }
        ensures request { self.new.request ≡ self.old.request }
    {
        let value = self.stack.value();
        self.marks = None;
        self.leave(code, &value);
    }

    // The wrapper on top returns.
    fn return_from_wrapper(&mut self, code: &Code)
        requires request { self.old.request ≡ None }
        requires line { line_on (frames_of code.now self.old.stack.top self.old.stack.below) ≡ Some (line.Ret) }
        ensures steps { HasTaken code.now self.old self.new (frame_step code.now (thread_of code.now self.old) (frames_of code.now self.old.stack.top self.old.stack.below)) }
        ensures spares { events_left self.new ≤ events_left self.old }
    {
        self.leave_wrapper(code);
    }

    // The wrapper on top leaves its principal, and itself by the `ret` behind that line.
    fn go_out(&mut self, code: &Code) -> Result<(), Memory>
        requires request { self.old.request ≡ None }
        requires line { line_on (frames_of code.now self.old.stack.top self.old.stack.below) ≡ Some (line.Leave) }
        ensures steps { OnOk result (HasTaken code.now self.old self.new (frame_step code.now (thread_of code.now self.old) (frames_of code.now self.old.stack.top self.old.stack.below))) }
        ensures stays { OnErr result (HasStayed code.now self.old self.new) }
        ensures lacks { OnErr result (TopLacks code.now self.new.fuel self.new.stack.top) }
        ensures spares { events_left self.new ≤ events_left self.old }
    {
        let behind = self.stack.line_behind(code)?;
        if is_ret(behind) {
            self.stack.shadow.pop();
            self.leave_wrapper(code);
        } else {
            self.stop(&Outcome::Trapped(Trap::Unreachable));
        }
        Ok(())
    }

    /// A step of the wrapper on top, by its line.
    pub(super) fn go_on(&mut self, code: &Code, line: Line) -> Result<(), Memory>
        requires request { self.old.request ≡ None }
        requires line { line_on (frames_of code.now self.old.stack.top self.old.stack.below) ≡ Some line }
        ensures steps { OnOk result (HasTaken code.now self.old self.new (frame_step code.now (thread_of code.now self.old) (frames_of code.now self.old.stack.top self.old.stack.below))) }
        ensures stays { OnErr result (HasStayed code.now self.old self.new) }
        ensures lacks { OnErr result (TopLacks code.now self.new.fuel self.new.stack.top) }
        ensures spares { events_left self.new ≤ events_left self.old }
    {
        match line {
            Line::Pre(index) => self.act(code, false, index)?,
            Line::Post(index) => self.act(code, true, index)?,
            Line::Leave => self.go_out(code)?,
            Line::Ret => self.return_from_wrapper(code),
            Line::Enter | Line::Call | Line::Other => {
                self.stop(&Outcome::Trapped(Trap::Unreachable));
            }
        }
        Ok(())
    }

    // A wrapper stands on the function that calls it, and asks to enter what it wraps.
    fn ask_enter(&mut self, function: u32, args: Words, copy: Words, wrapper: Wrapper)
        requires fuel { 0 < self.old.fuel }
        requires room { 0 < self.old.stack.below.room }
        ensures steps { (c : Images) → copy ≡ args → CanEnter c self.old.stack (length args) 3 → 0 < self.old.stack.shadow.room → HasTaken c self.old self.new (Asks (with_frames (Wraps function args (wrapper_lines c wrapper) None ∷ frames_of c self.old.stack.top self.old.stack.below) (poorer (thread_of c self.old))) (request (top_of self.old.stack.shadow.principals) (what.Enter (Direct function) args))) }
        ensures spares { self.old.request ≡ None → events_left self.new ≤ events_left self.old }
    {
        let who = self.stack.shadow.top();
        self.fuel -= 1; // the call of a wrapper costs a unit
        self.marks = None;
        self.stack.push_wrapper(function, copy, wrapper);
        self.request = Some(Request {
            who,
            what: What::Enter {
                way: Way::Direct(function),
                args,
            },
        });
    }

    // The function calls a wrapper, which asks to enter what it wraps.
    fn call_entering(
        &mut self,
        code: &Code,
        function: u32,
        args: Words,
        wrapper: Wrapper,
    ) -> Result<(), Memory>
        requires fuel { 0 < self.old.fuel }
        requires request { self.old.request ≡ None }
        ensures steps { OnOk result (HasTaken code.now self.old self.new (Asks (with_frames (Wraps function args (wrapper_lines code.now wrapper) None ∷ frames_of code.now self.old.stack.top self.old.stack.below) (poorer (thread_of code.now self.old))) (request (top_of self.old.stack.shadow.principals) (what.Enter (Direct function) args)))) }
        ensures stays { OnErr result (HasStayed code.now self.old self.new) }
        ensures spares { events_left self.new ≤ events_left self.old }
    {
        let copy = Items::from_slice(self.alloc, args.as_slice())?;
        self.stack.prepare_entry(code, args.len(), 3)?;
        self.ask_enter(function, args, copy, wrapper);
        Ok(())
    }

    /// The function calls the wrapper of an import with arguments, and that asks to enter the import; one that begins with another line
    /// cannot run.
    pub(super) fn call_wrapper(
        &mut self,
        code: &Code,
        function: u32,
        args: Words,
        wrapper: Wrapper,
    ) -> Result<(), Memory>
        requires fuel { 0 < self.old.fuel }
        requires request { self.old.request ≡ None }
        requires top { IsSome (running_on self.old.stack.top) }
        ensures steps { OnOk result (HasTaken code.now self.old self.new (wrapper_on (poorer (thread_of code.now self.old)) function args (wrapper_lines code.now wrapper))) }
        ensures stays { OnErr result (HasStayed code.now self.old self.new) }
        ensures spares { events_left self.new ≤ events_left self.old }
    {
        if !self.stack.has_room() {
            self.trap(Trap::TooDeep);
            return Ok(());
        }
        if !is_enter(code.line(wrapper, 0)) {
            self.trap(Trap::Unreachable);
            return Ok(());
        }
        self.call_entering(code, function, args, wrapper)?;
        Ok(())
    }
}
