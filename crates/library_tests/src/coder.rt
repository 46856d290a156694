//! Tests of pm_coder: the code bytes of choices, by a plain range coder in another language.
ghost use Rattle.std.specs.Prelude.{◌<◌};

use pm_coder::{
    Coder, Cut, Decoder, Encoder, Fault, NEW_SLOT, OutOfMemory, slot_learned, slot_share, uniform,
};
use std::alloc::Global;
use std::test::Fail;

type Row<'a> = &'a [(bool, u16)];

fn code_of(alloc: Global, row: Row) -> Result<Vec<u8>, OutOfMemory> {
    let mut encoder = Encoder::new(alloc);
    for (choice, share) in row {
        encoder.encode(*choice, *share)?;
    }
    encoder.finish()
}

// Whether the code has these choices, and nothing after them.
fn has_choices(code: &[u8], row: Row) -> Result<bool, Cut> {
    let mut decoder = Decoder::new(code)?;
    for (choice, share) in row {
        if decoder.decode(*share)? != *choice {
            return Ok(false);
        }
    }
    Ok(decoder.is_at_end())
}

fn is_read_back(alloc: Global, row: Row, code: &[u8]) -> Result<bool, OutOfMemory> {
    let bytes = code_of(alloc, row)?;
    Ok(bytes.as_slice() == code && has_choices(code, row) == Ok(true))
}

// Choices with shares from 1 to 65,535, likely and unlikely.
const MIXED: [(bool, u16); 12] = [
    (true, 1),
    (true, 4369),
    (false, 8738),
    (true, 13107),
    (false, 21845),
    (true, 26214),
    (true, 34952),
    (false, 39321),
    (true, 43690),
    (true, 65535),
    (false, 65535),
    (false, 30583),
];

// Two choices that leave the ends close on both sides of a top byte's bound, and what that costs.
const CLOSE: [(bool, u16); 7] = [
    (true, 32768),
    (false, 65535),
    (false, 65535),
    (true, 1),
    (false, 0),
    (true, 0),
    (true, 0),
];

#[test]
fn no_choice_and_one_have_their_bytes(rt: HostRuntime) -> Result<(), Fail> {
    assert!(rt; is_read_back(rt.alloc(), &[], &[0, 0, 0, 0])?);
    assert!(rt; is_read_back(rt.alloc(), &[(true, 32768)], &[0, 0, 0, 0])?);
    assert!(rt; is_read_back(rt.alloc(), &[(false, 32768)], &[128, 0, 0, 0])?);
    assert!(rt; is_read_back(rt.alloc(), &[(false, 65535)], &[255, 255, 0, 0, 0, 0])?);
    Ok(())
}

#[test]
fn rows_have_their_bytes(rt: HostRuntime) -> Result<(), Fail> {
    let mixed = [0, 0, 3, 160, 73, 125, 246, 88, 255];
    assert!(rt; is_read_back(rt.alloc(), &MIXED, &mixed)?);
    let close = [
        127, 255, 255, 255, 128, 0, 0, 0, 0, 1, 0, 0, 0, 0, 0, 0, 0, 0,
    ];
    assert!(rt; is_read_back(rt.alloc(), &CLOSE, &close)?);
    Ok(())
}

#[test]
fn a_byte_too_few_or_too_many_is_seen(rt: HostRuntime) -> Result<(), Fail> {
    let code = [255, 255, 0, 0, 0, 0, 7];
    assert!(rt; has_choices(&code[..6], &[(false, 65535)]) == Ok(true));
    assert!(rt; has_choices(&code[..5], &[(false, 65535)]) == Err(Cut));
    assert!(rt; has_choices(&code[..3], &[]) == Err(Cut));
    assert!(rt; has_choices(&code, &[(false, 65535)]) == Ok(false));
    Ok(())
}

// Two numbers below bounds, by one routine for both directions.
fn two_numbers<C: Coder>(coder: &mut C, first: u32, second: u32) -> Result<[u32; 2], Fault>
    requires first { first < 1000 }
    requires second { second < 1048577 }
{
    let first = uniform(coder, 1000, first)?;
    let second = uniform(coder, 1_048_577, second)?;
    Ok([first, second])
}

fn numbers_of(code: &[u8]) -> Result<[u32; 2], Fault> {
    match Decoder::new(code) {
        Ok(decoder) => {
            let mut decoder = decoder;
            two_numbers(&mut decoder, 0, 0)
        }
        Err(Cut) => Err(Fault::Cut),
    }
}

#[test]
fn numbers_are_read_back(rt: HostRuntime) -> Result<(), Fail> {
    let mut encoder = Encoder::new(rt.alloc());
    assert!(rt; two_numbers(&mut encoder, 417, 1_048_576) == Ok([417, 1_048_576]));
    let code = encoder.finish()?;
    assert!(rt; code.as_slice() == [148, 253, 239, 140, 0, 0, 0].as_slice());
    assert!(rt; numbers_of(code.as_slice()) == Ok([417, 1_048_576]));
    assert!(rt; numbers_of(&[148, 253, 239, 140, 0, 0]) == Err(Fault::Cut));
    Ok(())
}

#[test]
fn slots_learn(rt: HostRuntime) -> Result<(), Fail> {
    let mut slot = NEW_SLOT;
    for bit in [true, true, false, true] {
        slot = slot_learned(slot, bit);
    }
    assert!(rt; slot == 3006467076);
    assert!(rt; [slot_share(NEW_SLOT), slot_share(slot), slot_share(255)] == [32768, 45875, 1]);
    Ok(())
}
