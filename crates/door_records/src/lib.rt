// The calls on catalogues, exported under plain C names (`include/rings.h`): each promises the form in numbers of an answer that the call promises (`Flat` of `door_spec`).

#![tactic(auto)]

ghost use Rattle.std.specs.Prelude.{◌≡◌};
ghost use Rattle.record_spec.specs.declared.Kind.TheVariants.{Front, Packed};
ghost use Rattle.record_spec.specs.Says.{ReadSays};
ghost use Rattle.record_spec.specs.Writes.{WriteSays};
ghost use Rattle.converter_spec.specs.Converts.{ConvertSays};
ghost use Rattle.door_spec.specs.Flat.{Flat, kind_number, flat_entry, flat_written, flat_conversion};

use door_spec::{RingsAnswer, RingsRecord};
use record_spec::{Kind, Record};
use refusal::Refusal;

// ---- reading

fn kind_number(x: Kind) -> usize
    ensures { result ≡ kind_number x }
{
    match x {
        Kind::Front => 1,
        Kind::Packed => 2,
    }
}

fn flat_entry(a: Result<Option<Record>, Refusal>) -> RingsRecord
    ensures { result ≡ flat_entry a }
{
    match a {
        Ok(Some(Record { n, k, kind, next })) => RingsRecord {
            refused: 0,
            place: 0,
            kind: kind_number(kind),
            n,
            k,
            next,
        },
        Ok(None) => RingsRecord {
            refused: 0,
            place: 0,
            kind: 0,
            n: 0,
            k: 0,
            next: 0,
        },
        Err(r) => RingsRecord {
            refused: refusal::number(r),
            place: refusal::place(r),
            kind: 0,
            n: 0,
            k: 0,
            next: 0,
        },
    }
}

#[unsafe(no_mangle)]
pub extern "C" fn rings_read_record(catalogue: &[u8], start: usize, out: &mut [u8]) -> RingsRecord
    ensures { Flat (λ a. ReadSays catalogue.now start out.old a out.new) flat_entry result }
{
    flat_entry(catalogue::read_record(catalogue, start, out))
}

// ---- writing

#[unsafe(no_mangle)]
pub extern "C" fn rings_write_front(
    reading: &[u8],
    k: usize,
    buffer: &mut [u8],
    at: usize,
) -> RingsAnswer
    ensures { Flat (λ a. WriteSays reading.now k Front buffer.old at a buffer.new) flat_written result }
{
    door_answer_inner::number(writer::write_record(reading, k, Kind::Front, buffer, at))
}

#[unsafe(no_mangle)]
pub extern "C" fn rings_write_packed(
    reading: &[u8],
    k: usize,
    buffer: &mut [u8],
    at: usize,
) -> RingsAnswer
    ensures { Flat (λ a. WriteSays reading.now k Packed buffer.old at a buffer.new) flat_written result }
{
    door_answer_inner::number(writer::write_record(reading, k, Kind::Packed, buffer, at))
}

// ---- converting

#[unsafe(no_mangle)]
pub extern "C" fn rings_convert(old: &[u8], out: &mut [u8]) -> RingsAnswer
    ensures { Flat (λ a. ConvertSays old.now out.old a out.new) flat_conversion result }
{
    door_answer_inner::done(converter::convert(old, out))
}
