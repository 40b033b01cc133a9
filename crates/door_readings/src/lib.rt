// The calls on readings, exported under plain C names (`include/rings.h`): each promises the form in numbers of an answer that the call promises (`Flat` of `door_spec`).

#![tactic(auto)]

ghost use Rattle.std.specs.Prelude.{◌≡◌};
ghost use Rattle.rings.specs.Alike.{even_handed, same_ring};
ghost use Rattle.refusal.specs.Calls.{one_reading, two_readings};
ghost use Rattle.classify_spec.specs.Says.{ClassifySays};
ghost use Rattle.home_spec.specs.Says.{HomeSays, ToldSays, DistanceSays, ClosestSays};
ghost use Rattle.stock_spec.specs.Stock.{home_byte};
ghost use Rattle.door_spec.specs.Flat.{Flat, class_number, class_value, flat_classified, flat_homed, flat_told, flat_distance, flat_closest};

use door_spec::{RingsAnswer, RingsClass, RingsHome, RingsNearest};
use home_spec::{Home, Nearest};
use refusal::Refusal;
use rings::Class;

// ---- classes

fn class_number(c: Class) -> usize
    ensures { result ≡ class_number c }
{
    match c {
        Class::Loose(_) => 1,
        Class::Opening(_) => 2,
        Class::Repeating(_) => 3,
        Class::Single => 4,
    }
}

fn class_value(c: Class) -> usize
    ensures { result ≡ class_value c }
{
    match c {
        Class::Loose(p) | Class::Opening(p) | Class::Repeating(p) => p,
        Class::Single => 0,
    }
}

fn flat_classified(a: Result<Class, Refusal>) -> RingsClass
    ensures { result ≡ flat_classified a }
{
    match a {
        Ok(c) => RingsClass {
            refused: 0,
            place: 0,
            kind: class_number(c),
            value: class_value(c),
        },
        Err(r) => RingsClass {
            refused: refusal::number(r),
            place: refusal::place(r),
            kind: 0,
            value: 0,
        },
    }
}

#[unsafe(no_mangle)]
pub extern "C" fn rings_classify(reading: &[u8], k: usize) -> RingsClass
    ensures { Flat (ClassifySays reading.now k) flat_classified result }
{
    flat_classified(classify::classify(reading, k))
}

// ---- home

fn flat_homed(a: Result<Home, Refusal>) -> RingsHome
    ensures { result ≡ flat_homed a }
{
    match a {
        Ok(Home { shift, period }) => RingsHome {
            refused: 0,
            place: 0,
            shift,
            period,
        },
        Err(r) => RingsHome {
            refused: refusal::number(r),
            place: refusal::place(r),
            shift: 0,
            period: 0,
        },
    }
}

#[unsafe(no_mangle)]
pub extern "C" fn rings_home(reading: &[u8], k: usize, out: &mut [u8]) -> RingsHome
    ensures { Flat (λ a. HomeSays reading.now k out.old a out.new) flat_homed result }
{
    flat_homed(home::bring_home(reading, k, out))
}

#[unsafe(no_mangle)]
pub extern "C" fn rings_stock_home(target: u8) -> u8
    ensures { result ≡ home_byte target }
{
    stock::stock_home(target)
}

// ---- comparing

#[unsafe(no_mangle)]
pub extern "C" fn rings_same(a: &[u8], b: &[u8], k: usize) -> RingsAnswer
    ensures { Flat (ToldSays (two_readings a.now b.now k) (same_ring a.now b.now)) flat_told result }
{
    door_answer_inner::told(home::same_ring(a, b, k))
}

#[unsafe(no_mangle)]
pub extern "C" fn rings_even_handed(reading: &[u8], k: usize) -> RingsAnswer
    ensures { Flat (ToldSays (one_reading reading.now k) (even_handed reading.now)) flat_told result }
{
    door_answer_inner::told(home::even_handed(reading, k))
}

#[unsafe(no_mangle)]
pub extern "C" fn rings_apart(a: &[u8], b: &[u8], k: usize) -> RingsAnswer
    ensures { Flat (DistanceSays a.now b.now k) flat_distance result }
{
    door_answer_inner::number(home::apart(a, b, k))
}

fn flat_closest(a: Result<Nearest, Refusal>) -> RingsNearest
    ensures { result ≡ flat_closest a }
{
    match a {
        Ok(Nearest { distance, shift }) => RingsNearest {
            refused: 0,
            place: 0,
            distance,
            shift,
        },
        Err(r) => RingsNearest {
            refused: refusal::number(r),
            place: refusal::place(r),
            distance: 0,
            shift: 0,
        },
    }
}

#[unsafe(no_mangle)]
pub extern "C" fn rings_nearest(a: &[u8], b: &[u8], k: usize) -> RingsNearest
    ensures { Flat (ClosestSays a.now b.now k) flat_closest result }
{
    flat_closest(home::nearest(a, b, k))
}
