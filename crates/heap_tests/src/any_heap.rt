// What every heap does, whichever it is.
use heap::{Address, Heap, HeapRefusal, Side, Value, let_all_go};
use std::alloc::Global;
use std::test::Fail;

const NOWHERE: Address = Address { at: 65_535 };

// By number and not by refusal: the numbers are tested too.
fn refused<T: Drop>(answer: Result<T, HeapRefusal>, number: u8) -> Result<(), Fail> {
    match answer {
        Ok(_) => Err(Fail::new("not refused")),
        Err(refusal) => {
            let told = refusal.number();
            if told == number {
                return Ok(());
            }
            Err(Fail::new(format_args!("refused by {told}, not by {number}")))
        }
    }
}

fn finds(answer: Result<Value, HeapRefusal>, value: Value) -> Result<(), Fail> {
    let found = answer?;
    if found == value {
        return Ok(());
    }
    Err(Fail::new(format_args!("found {found:?}, not {value:?}")))
}

// Takes what is free, which is so many places, and no more.
pub fn fills<H: Heap>(heap: &mut H, places: u16) -> Result<(), Fail> {
    for _ in 0..places {
        heap.make(Value::Nil, Value::Nil)?;
    }
    refused(heap.make(Value::Nil, Value::Nil), 44)
}

// A list whose head alone is held: its last cell is made first.
fn list<H: Heap>(heap: &mut H, cells: u16) -> Result<Address, Fail> {
    let mut head = heap.make(Value::Number(0), Value::Nil)?;
    for number in 1..cells {
        let next = heap.make(Value::Number(number as i64), Value::At(head))?;
        heap.let_go(head)?;
        head = next;
    }
    Ok(head)
}

// A whole number does not give way to nil or a place, nor the reverse; of two refusals the smallest number is said.
pub fn keeps_kinds<H: Heap>(heap: &mut H) -> Result<(), Fail> {
    let cell = heap.make(Value::Number(1), Value::Nil)?;
    refused(heap.put(cell, Side::Left, Value::Nil), 43)?;
    refused(heap.put(cell, Side::Right, Value::Number(2)), 43)?;
    refused(heap.put(cell, Side::Left, Value::At(NOWHERE)), 40)?;
    heap.put(cell, Side::Left, Value::Number(2))?;
    heap.put(cell, Side::Right, Value::At(cell))?;
    finds(heap.look(cell, Side::Left), Value::Number(2))?;
    finds(heap.look(cell, Side::Right), Value::At(cell))
}

// In a heap of 2 places: a full heap says first that a place is not held. The first cell names itself, so that no heap frees it.
pub fn refuses_unheld<H: Heap>(heap: &mut H) -> Result<(), Fail> {
    refused(heap.make(Value::At(NOWHERE), Value::Nil), 41)?;
    let cell = heap.make(Value::Nil, Value::Nil)?;
    heap.put(cell, Side::Right, Value::At(cell))?;
    heap.let_go(cell)?;
    refused(heap.let_go(cell), 41)?;
    heap.make(Value::Nil, Value::Nil)?;
    refused(heap.make(Value::At(cell), Value::Nil), 41)?;
    refused(heap.make(Value::Nil, Value::Nil), 44)
}

// A place that is not there, or not taken.
pub fn refuses_untaken<H: Heap>(heap: &mut H, place: Address) -> Result<(), Fail> {
    refused(heap.hold(place), 40)?;
    refused(heap.let_go(place), 41)?;
    refused(heap.look(place, Side::Left), 40)?;
    refused(heap.put(place, Side::Left, Value::Number(1)), 40)
}

// 65,535 holds and no more.
pub fn holds<H: Heap>(heap: &mut H) -> Result<(), Fail> {
    let cell = heap.make(Value::Nil, Value::Nil)?;
    for _ in 0..65_534u16 {
        heap.hold(cell)?;
    }
    refused(heap.hold(cell), 42)?;
    for _ in 0..65_535u16 {
        heap.let_go(cell)?;
    }
    refused(heap.let_go(cell), 41)
}

// In a heap of 1,024 places: a list of 1,000 cells is let go at its head.
pub fn lets_list_go<H: Heap>(heap: &mut H, free: u16) -> Result<(), Fail> {
    let head = list(heap, 1000)?;
    heap.let_go(head)?;
    fills(heap, free)
}

// In a heap of 10 places: a list of 10 cells is let go at its head while its fifth cell is held, so that the tail stays.
pub fn keeps_tail<H: Heap>(heap: &mut H, free: u16) -> Result<(), Fail> {
    let head = list(heap, 10)?;
    let mut cell = head;
    for _ in 0..4u8 {
        if let Value::At(next) = heap.look(cell, Side::Right)? {
            cell = next;
        }
    }
    heap.hold(cell)?;
    heap.let_go(head)?;
    fills(heap, free)?;
    for left in 0..6u8 {
        finds(heap.look(cell, Side::Left), Value::Number(5 - left as i64))?;
        if let Value::At(next) = heap.look(cell, Side::Right)? {
            cell = next;
        }
    }
    Ok(())
}

// In a heap of 4 places: two cells that name one another stay when both are let go.
pub fn keeps_ring<H: Heap>(heap: &mut H) -> Result<(), Fail> {
    let one = heap.make(Value::Nil, Value::Nil)?;
    let other = heap.make(Value::At(one), Value::Nil)?;
    heap.put(one, Side::Left, Value::At(other))?;
    heap.let_go(one)?;
    heap.let_go(other)?;
    finds(heap.look(one, Side::Left), Value::At(other))?;
    finds(heap.look(other, Side::Left), Value::At(one))?;
    fills(heap, 2)
}

// All values are let go of, past a refusal, and the first refusal is the answer.
pub fn lets_all_go<H: Heap>(heap: &mut H, alloc: Global) -> Result<(), Fail> {
    let one = heap.make(Value::Nil, Value::Nil)?;
    let other = heap.make(Value::Nil, Value::Nil)?;
    let mut values = [
        Value::At(one),
        Value::At(NOWHERE),
        Value::Nil,
        Value::At(other),
    ]
    .to_vec(alloc)?;
    refused(let_all_go(heap, &mut values), 41)?;
    if !values.is_empty() {
        return Err(Fail::new("values are left"));
    }
    refused(heap.let_go(one), 41)?;
    refused(heap.let_go(other), 41)
}
