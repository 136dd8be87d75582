//! The texts, and what verifying their modules finds.

/// A module's text, what it shows, and what is found in the module.
pub struct Row {
    pub name: &'static str,
    pub text: &'static str,
    pub wanted: Wanted,
}

/// What is found in a module.
#[derive(Clone, Copy)]
pub enum Wanted {
    /// No fault, in so many functions.
    Nothing(usize),
    /// No fault, and two parameters of these names in the first function.
    Parameters(&'static str, &'static str),
    /// The number of the first fault, its line, and what names it.
    Fault(u8, u32, &'static str),
    /// What the first fault says.
    Says(&'static str),
}

/// Modules without a fault, and with each of the faults.
pub static ROWS: [Row; 15] = [
    Row {
        name: "parameters of imports lose their names",
        text: "declare void @f(ptr %p, i8)",
        wanted: Wanted::Parameters("", ""),
    },
    Row {
        name: "parameters of functions keep their names",
        text: "define void @f(ptr %p, i8 %b) {\nret void\n}\n",
        wanted: Wanted::Parameters("p", "b"),
    },
    // None of the faults below, though they are near to one.
    Row {
        name: "a parameter is assigned",
        text: "define i32 @f(i32 %x) {
  ret i32 %x
}
",
        wanted: Wanted::Nothing(1),
    },
    Row {
        name: "a loop assigns what it reads",
        text: "define i32 @f(i1 %p) {
  br label %l
l:
  %a = phi i32 [ 0, %0 ], [ %b, %l ]
  %b = add i32 %a, 1
  br i1 %p, label %e, label %l
e:
  ret i32 %b
}
",
        wanted: Wanted::Nothing(1),
    },
    // Operands, arguments, results and initialisers of another type.
    Row {
        name: "an operand is of another type",
        text: "define i32 @f(i1 %p) {
  %a = add i32 %p, 1
  ret i32 1
}
",
        wanted: Wanted::Fault(1, 2, "add"),
    },
    Row {
        name: "a conversion does not change the width",
        text: "define i32 @f(i1 %p) {
  %a = zext i32 1 to i32
  ret i32 1
}
",
        wanted: Wanted::Fault(1, 2, "zext"),
    },
    Row {
        name: "a call has too few arguments",
        text: "define i32 @f(i1 %p) {
  call i32 @f()
  ret i32 1
}
",
        wanted: Wanted::Fault(1, 2, "call"),
    },
    Row {
        name: "an initialiser is of another length",
        text: "define i32 @f(i1 %p) {
  ret i32 1
}

@g = constant [3 x i8] c\"ab\"
",
        wanted: Wanted::Fault(1, 5, "@g"),
    },
    // Labels that the function lacks.
    // The instruction before it has an operand of another type, which is looked for later.
    Row {
        name: "a label comes before a type",
        text: "define i32 @f(i1 %p) {
  %a = add i32 %p, 1
  br label %l
}
",
        wanted: Wanted::Fault(2, 3, "l"),
    },
    // Registers that are read on some walk that did not assign them.
    Row {
        name: "nothing assigns a register",
        text: "define i32 @f() {
  ret i32 %x
}
",
        wanted: Wanted::Fault(3, 2, "%x"),
    },
    Row {
        name: "a loop reads before it assigns",
        text: "define i32 @f(i1 %p) {
  br label %l
l:
  %a = phi i32 [ %b, %0 ], [ 0, %l ]
  %b = add i32 %a, 1
  br i1 %p, label %e, label %l
e:
  ret i32 %b
}
",
        wanted: Wanted::Fault(3, 4, "%b"),
    },
    Row {
        name: "a walk goes round an assignment",
        text: "define i32 @f(i1 %p) {
  br i1 %p, label %l, label %e
l:
  %a = add i32 1, 1
  br label %e
e:
  %b = add i32 %a, 1
  ret i32 %b
}
",
        wanted: Wanted::Fault(3, 7, "%a"),
    },
    // Phis where none can stand.
    Row {
        name: "a phi stands in the first block",
        text: "define i32 @f(i1 %p) {
  %a = phi i32 [ 0, %0 ]
  br label %0
}
",
        wanted: Wanted::Fault(4, 2, "%a"),
    },
    // Blocks without a terminator.
    Row {
        name: "a block ends without a terminator",
        text: "define i32 @f(i1 %p) {
  %a = add i32 1, 1
  %b = add i32 1, 1
}
",
        wanted: Wanted::Fault(5, 3, "0"),
    },
    // The line is the function's.
    Row {
        name: "a block has no instruction",
        text: "define i32 @f(i1 %p) {
}
",
        wanted: Wanted::Fault(5, 1, "0"),
    },
];

/// Modules with a fault, and what it says.
pub static SAYINGS: [Row; 5] = [
    Row {
        name: "another type is said",
        text: "@g = global i32 null",
        wanted: Wanted::Says("line 1: the types of `@g` do not match"),
    },
    Row {
        name: "a label that is not there is said",
        text: "define void @f() {\n  br label %b\n}",
        wanted: Wanted::Says("line 2: the function has no block `b`"),
    },
    Row {
        name: "a register that is not assigned is said",
        text: "define i32 @f() {\n  ret i32 %x\n}",
        wanted: Wanted::Says("line 2: `%x` may be read before it is assigned"),
    },
    Row {
        name: "a phi out of place is said",
        text: "define void @f() {\n  %r = phi i32 [ 1, %0 ]\n  ret void\n}",
        wanted: Wanted::Says(
            "line 2: the phi `%r` is out of place, or its labels are not its block's predecessors",
        ),
    },
    Row {
        name: "a block without a terminator is said",
        text: "define void @f() {\n  %r = add i32 1, 2\n}",
        wanted: Wanted::Says("line 2: the block `0` ends without a terminator"),
    },
];
