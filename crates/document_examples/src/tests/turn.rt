//! A small book, a list of values with the sessions that appended them, shared by two threads.
ghost use Rattle.std.specs.Prelude.{◌≡◌, ◌+◌, ◌⊎◌, ◌^◌, ◌<◌, ◌≤◌, ◌++◌, ◌∷◌, [], ℕ, Some, None, ⊤, length};
ghost use Rattle.turn_book.specs.Passes.{IsPassOf, view_of, first_book};

use knit_base::{NoMemory, Steps};
use std::alloc::Global;
use std::marker::Brand;
use std::sync::Wait;
use std::sync::ledger::{Blank, Ledger};
use std::test::Fail;
use std::thread::{Threads, join};
use turn_book::{Booked, Pass, Shared};

#[derive(Drop)]
enum Command {
    Count,
    Append(u64),
}

#[derive(Drop)]
enum Reply {
    Length(u32),
    Appended,
    NoMemory,
}

#[derive(Drop)]
struct Value {
    session: u32,
    value: u64,
}

#[derive(Drop)]
struct Register {
    first: u64,
    values: Vec<Value>,
    ghost few: { length values.items < 2 ^ 32 },
}

impl Register {
    fn new(alloc: Global, first: u64) -> Register
        ensures { (result.first ≡ first) × (result.values.items ≡ []) }
    {
        Register {
            first,
            values: Vec::new(alloc),
        }
    }

    fn append(&mut self, session: u32, value: u64) -> Reply
        ensures first { self.new.first ≡ self.old.first }
        ensures appended { ((result ≡ Reply.Appended) × (self.new.values.items ≡ self.old.values.items ++ record { session = session; value = value } ∷ [])) ⊎ ((result ≡ Reply.NoMemory) × (self.new.values.items ≡ self.old.values.items)) }
    {
        if self.values.len() >= 1 << 20 || self.values.reserve(1).is_err() {
            return Reply::NoMemory;
        }
        self.values.push_reserved(Value { session, value });
        Reply::Appended
    }
}

impl Booked for Register {
    ghost use Rattle.document_examples.specs.declared.tests.turn.Command.TheVariants.{Count, Append};
    ghost use Rattle.document_examples.specs.declared.tests.turn.Reply.TheVariants.{Length, Appended, NoMemory};

    type Command = Command;

    type Reply = Reply;

    type Entry = Value;

    type Opening = u64;

    ghost opening = { λ register. register.first };

    ghost journal = { λ register. register.values.items };

    ghost number_of = { λ value. value.session };

    ghost right = { λ first before number command reply added. ((command ≡ Count) × (reply ≡ Length (length before)) × (added ≡ None)) ⊎ ((value : ℕ) × (command ≡ Append value) × (((reply ≡ Appended) × (added ≡ Some (record { session = number; value = value }))) ⊎ ((reply ≡ NoMemory) × (added ≡ None)))) };

    ghost fits = { λ first before command. ⊤ };

    ghost bound = { λ first before command. 1 };

    fn count(&self) -> u32 {
        self.values.len() as u32
    }

    fn act<L: Ledger>(&mut self, number: u32, command: Command, steps: &mut Steps<L>) -> Reply {
        steps.tick();
        match command {
            Command::Count => Reply::Length(self.values.len() as u32),
            Command::Append(value) => self.append(number, value),
        }
    }

    ghost fits_longer = { λ first before more command fits. tt };
}

fn counted<L: Ledger, R: Threads + Wait>(
    rt: &R,
    blank: Blank,
    shared: &Shared<Register>,
    pass: &mut Pass<Register>,
    number: u32,
    command: Command,
) -> Reply
    requires name { (blank.name ≡ L.name) × (blank.parts ≡ L.parts) × (0 < L.parts) }
    requires of_this { IsPassOf shared.now pass.old }
    requires number { ((view_of pass.old).first ≤ number) × (number < (view_of pass.old).past) }
    ensures of_this { IsPassOf shared.now pass.new }
    ensures range { ((view_of pass.new).first ≡ (view_of pass.old).first) × ((view_of pass.new).past ≡ (view_of pass.old).past) }
{
    let mut steps = Steps::<L>::start(rt, blank);
    shared.turn(rt, pass, number, command, &mut steps)
}

// One turn, whose steps nobody counts.
fn one<R: Threads + Wait>(
    rt: &R,
    shared: &Shared<Register>,
    mut pass: Pass<Register>,
    number: u32,
    command: Command,
) -> (Pass<Register>, Reply)
    requires of_this { IsPassOf shared.now pass }
    requires number { ((view_of pass).first ≤ number) × (number < (view_of pass).past) }
    ensures of_this { IsPassOf shared.now result.0 }
    ensures range { ((view_of result.0).first ≡ (view_of pass).first) × ((view_of result.0).past ≡ (view_of pass).past) }
{
    let reply = counted::<Brand, R>(rt, Blank::new(1), shared, &mut pass, number, command);
    (pass, reply)
}

// Two commands, each carried out in a thread of its own.
fn both<R: Threads + Wait + Sync>(
    rt: &R,
    alloc: Global,
    lower: Command,
    upper: Command,
) -> Result<(Register, Reply, Reply), NoMemory> {
    let (shared, mut left) = Shared::start(rt, alloc, Register::new(alloc, 3), 2)?;
    let right = shared.split(&mut left, 1);
    let ((mut left, first), (right, second)) = join(
        rt,
        || -> (Pass<Register>, Reply)
            requires { IsPassOf shared left × ((view_of left).first ≡ 0) × ((view_of left).past ≡ 1) }
            ensures { IsPassOf shared result.0 × ((view_of result.0).first ≡ 0) × ((view_of result.0).past ≡ 1) }
        { one(rt, &shared, left, 0, lower) },
        || -> (Pass<Register>, Reply)
            requires { IsPassOf shared right × ((view_of right).first ≡ 1) × ((view_of right).past ≡ 2) }
            ensures { IsPassOf shared result.0 × ((view_of result.0).first ≡ 1) × ((view_of result.0).past ≡ 2) }
        { one(rt, &shared, right, 1, upper) },
    );
    shared.join(&mut left, right);
    Ok((shared.finish(rt, left), first, second))
}

#[test]
fn two_threads_append(rt: HostRuntime) -> Result<(), Fail> {
    let Ok((register, first, second)) = both(
        &rt,
        rt.alloc(),
        Command::Append(5),
        Command::Append(7),
    ) else {
        panic!(rt; "want of memory")
    };
    assert!(rt; matches!(first, Reply::Appended) && matches!(second, Reply::Appended));
    assert_eq!(rt; register.first, 3);
    assert_eq!(rt; register.values.len(), 2);
    for entry in &register.values {
        assert_eq!(rt; entry.value, if entry.session == 0 { 5 } else { 7 });
    }
    assert!(rt; register.values[0].session != register.values[1].session);
    Ok(())
}

#[test]
fn a_count_stands_before_or_behind_an_entry(rt: HostRuntime) -> Result<(), Fail> {
    let Ok((register, reply, _)) = both(&rt, rt.alloc(), Command::Count, Command::Append(7)) else {
        panic!(rt; "want of memory")
    };
    assert!(rt; matches!(reply, Reply::Length(0) | Reply::Length(1)));
    assert_eq!(rt; register.values.len(), 1);
    assert!(rt; register.values[0].session == 1 && register.values[0].value == 7);
    Ok(())
}

#[test]
fn one_thread_uses_each_call(rt: HostRuntime) -> Result<(), Fail> {
    let Ok((shared, mut lower)) = Shared::start(&rt, rt.alloc(), Register::new(rt.alloc(), 3), 3)
    else {
        panic!(rt; "want of memory")
    };
    let upper = shared.split(&mut lower, 1);
    assert_eq!(rt; (lower.first(), lower.past()), (0, 1));
    assert_eq!(rt; (upper.first(), upper.past()), (1, 3));
    let (upper, _) = one(&rt, &shared, upper, 2, Command::Append(9));
    assert_eq!(rt; shared.newest(&mut lower), 1);
    shared.join(&mut lower, upper);
    assert_eq!(rt; (lower.first(), lower.past()), (0, 3));
    let (whole, reply) = one(&rt, &shared, lower, 0, Command::Count);
    assert!(rt; matches!(reply, Reply::Length(1)));
    let register = shared.finish(&rt, whole);
    assert!(rt; register.values.len() == 1 && register.values[0].session == 2);
    Ok(())
}
