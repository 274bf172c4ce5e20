//! An HP-IL frame is 11 bits, three control bits above eight data bits: its parts, by shifts and masks.
#![tactic(auto)]

ghost use Rattle.std.specs.Prelude.{◌≡◌};
ghost use Rattle.frame.specs.Frame.{control_of, data_of, made, is_data, is_end, has_service, with_service, same_apart};

// Kept: each part is a shift or a mask, as the paper describes a frame.

// The three control bits.
pub fn control(f: u16) -> u8
    ensures { result ≡ control_of f }
{
    (f >> 8) as u8
}

// The data byte.
pub fn data_byte(f: u16) -> u8
    ensures { result ≡ data_of f }
{
    (f & 255) as u8
}

// The frame with these control bits and this data byte.
pub fn make(c: u8, d: u8) -> u16
    ensures { result ≡ made c d }
{
    (c as u16) << 8 | d as u16
}

// Whether it is a data frame, end bytes included: control 0 to 3.
pub fn is_data(f: u16) -> bool
    ensures { result ≡ is_data f }
{
    f >> 8 < 4
}

// Whether it is an end byte: control 2, or 3 with a service request.
pub fn is_end(f: u16) -> bool
    ensures { result ≡ is_end f }
{
    f >> 9 == 1
}

// Whether the service bit is set, the lowest control bit of data and identify frames.
#[tactic(auto, using(crate::proofs::Masks::test_service))]
pub fn has_service(f: u16) -> bool
    ensures { result ≡ has_service f }
{
    f & 256 != 0
}

// The frame with the service bit set.
#[tactic(auto, using(crate::proofs::Masks::or_service))]
pub fn with_service(f: u16) -> u16
    ensures { result ≡ with_service f }
{
    f | 256
}

// Whether two frames are equal, the service bit aside.
#[tactic(auto, using(crate::proofs::Masks::test_same))]
pub fn same_apart(f: u16, g: u16) -> bool
    ensures { result ≡ same_apart f g }
{
    (f | 256) == (g | 256)
}
