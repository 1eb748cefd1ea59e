// Worked figures. Expected values come from the rules by hand or by another program.
use crate::bits::bit;
use crate::fault::{CapFault, GeneratorFault, Layer, Refusal, SpanFault};
use crate::generator::Generator;
use crate::pad::Pad;
use crate::setup::Setup;
use crate::span::apply;
use std::test::Fail;

// A pad of 1,024 bytes 0f under key a5 gives keystream aa, and no more than 512 bits of it.
#[test]
fn pad_of_0f(rt: HostRuntime) -> Result<(), Fail> {
    let mut pad = Pad::new(&[0x0f; 1024])?;
    pad.load(&Setup {
        key: &[0xa5],
        count: 4,
        variable: &[0x30],
    })?;
    assert_eq!(rt; pad.take(8)?, 0xaa);
    assert_eq!(rt; pad.take(56)?, 0xaa_aaaa_aaaa_aaaa);
    for _ in 0..6 {
        assert_eq!(rt; pad.take(64)?, 0xaaaa_aaaa_aaaa_aaaa);
    }
    assert_eq!(rt; pad.left(), 64);
    assert_eq!(rt; pad.take(64)?, 0xaaaa_aaaa_aaaa_aaaa);
    assert_eq!(rt; pad.take(1), Err(GeneratorFault::TakeBeyond));
    Ok(())
}

// A refused call leaves the place where it was, and forget unloads.
#[test]
fn takes_refused(rt: HostRuntime) -> Result<(), Fail> {
    let mut pad = Pad::new(&[0x0f; 1024])?;
    assert_eq!(rt; pad.take(1), Err(GeneratorFault::TakeBeyond));
    assert_eq!(rt; pad.take(0), Err(GeneratorFault::TakeCount));
    pad.load(&Setup {
        key: &[0xa5],
        count: 0,
        variable: &[],
    })?;
    assert_eq!(rt; pad.take(0), Err(GeneratorFault::TakeCount));
    assert_eq!(rt; pad.take(65), Err(GeneratorFault::TakeCount));
    assert_eq!(rt; pad.take(3)?, 0b101);
    assert_eq!(rt;
        pad.load(&Setup {
            key: &[0xa5, 0xa5],
            count: 0,
            variable: &[]
        }),
        Err(GeneratorFault::KeyLength)
    );
    assert_eq!(rt; pad.left(), 509);
    pad.forget();
    assert_eq!(rt; pad.left(), 0);
    Ok(())
}

// What load refuses, and which refusal comes first.
#[test]
fn loads_refused(rt: HostRuntime) -> Result<(), Fail> {
    let mut pad = Pad::new(&[0x0f; 1024])?;
    assert_eq!(rt;
        pad.load(&Setup {
            key: &[0xa5, 0xa5],
            count: 4,
            variable: &[0x30]
        }),
        Err(GeneratorFault::KeyLength)
    );
    assert_eq!(rt;
        pad.load(&Setup {
            key: &[0xa5],
            count: 5,
            variable: &[0x30]
        }),
        Err(GeneratorFault::VariableTooLong)
    );
    assert_eq!(rt;
        pad.load(&Setup {
            key: &[0xa5],
            count: 4,
            variable: &[0x30, 0]
        }),
        Err(GeneratorFault::VariableBytes)
    );
    assert_eq!(rt;
        pad.load(&Setup {
            key: &[0xa5],
            count: 0,
            variable: &[0]
        }),
        Err(GeneratorFault::VariableBytes)
    );
    assert_eq!(rt;
        pad.check(&Setup {
            key: &[],
            count: 5,
            variable: &[0x30, 0]
        }),
        Err(GeneratorFault::KeyLength)
    );
    assert_eq!(rt;
        pad.check(&Setup {
            key: &[0xa5],
            count: 5,
            variable: &[]
        }),
        Err(GeneratorFault::VariableTooLong)
    );
    assert_eq!(rt;
        pad.check(&Setup {
            key: &[0xa5],
            count: 4,
            variable: &[0x3f]
        }),
        Ok(())
    );
    assert_eq!(rt; pad.left(), 0);
    Ok(())
}

#[test]
fn questions(rt: HostRuntime) -> Result<(), Fail> {
    let pad = Pad::new(&[0x0f; 1024])?;
    assert_eq!(rt; pad.kind_number(), 2);
    assert_eq!(rt; pad.key_bits(), 8);
    assert_eq!(rt; pad.longest(), 4);
    assert_eq!(rt; pad.limit(), 512);
    assert!(rt; bit(&[0x80, 0x01], 0) && bit(&[0x80, 0x01], 15));
    assert!(rt; !bit(&[0x80, 0x01], 1) && !bit(&[0x80, 0x01], 16));
    Ok(())
}

#[test]
fn numbers_and_layers(rt: HostRuntime) -> Result<(), Fail> {
    let Err(short) = Pad::new(&[0x0f; 1023]) else {
        return Err(Fail::new("a pad of 1,023 bytes was made"));
    };
    assert_eq!(rt; Pad::KIND, 2);
    assert_eq!(rt; short.number(), 28);
    assert_eq!(rt; short.layer(), Layer::Generator);
    let shown = format!(in rt.alloc();
        "{short}, {}, {}",
        GeneratorFault::TakeBeyond,
        CapFault::Limit
    )?;
    assert_eq!(rt; shown.as_str(), "28 generator, 25 generator, 29 generator");
    assert_eq!(rt; GeneratorFault::KeyLength.number(), 21);
    assert_eq!(rt; GeneratorFault::VariableTooLong.number(), 22);
    assert_eq!(rt; GeneratorFault::VariableBytes.number(), 23);
    assert_eq!(rt; GeneratorFault::TakeCount.number(), 24);
    assert_eq!(rt; GeneratorFault::TakeBeyond.number(), 25);
    assert_eq!(rt; SpanFault::Outside.number(), 30);
    let text = format!(in rt.alloc(); "no {}", SpanFault::from(GeneratorFault::KeyLength))?;
    assert_eq!(rt; text.as_str(), "no 21 generator");
    Ok(())
}

// Byte j is 7j + ⌊j / 64⌋ modulo 256. The program has the same pad, but a test states its own input.
fn rising_pad() -> [u8; 1024] {
    std::array::from_fn(|j| ((7 * j + j / 64) % 256) as u8)
}

// Spans of several alignments and lengths over the rising pad, key 3c, variable 1010.
#[test]
fn spans(rt: HostRuntime) -> Result<(), Fail> {
    let bytes = rising_pad();
    let before = [
        0x00, 0xff, 0x5a, 0x01, 0x80, 0x3c, 0xc3, 0x7e, 0x11, 0x22, 0x33, 0x44,
    ];
    let cases = [
        (0, 0, before),
        (
            0,
            1,
            [
                0x80, 0xff, 0x5a, 0x01, 0x80, 0x3c, 0xc3, 0x7e, 0x11, 0x22, 0x33, 0x44,
            ],
        ),
        (
            7,
            1,
            [
                0x01, 0xff, 0x5a, 0x01, 0x80, 0x3c, 0xc3, 0x7e, 0x11, 0x22, 0x33, 0x44,
            ],
        ),
        (
            3,
            5,
            [
                0x16, 0xff, 0x5a, 0x01, 0x80, 0x3c, 0xc3, 0x7e, 0x11, 0x22, 0x33, 0x44,
            ],
        ),
        (
            3,
            6,
            [
                0x16, 0x7f, 0x5a, 0x01, 0x80, 0x3c, 0xc3, 0x7e, 0x11, 0x22, 0x33, 0x44,
            ],
        ),
        (
            0,
            96,
            [
                0xb6, 0x52, 0xfe, 0xa2, 0x1a, 0xad, 0x4b, 0xf9, 0xef, 0xd7, 0xdf, 0xaf,
            ],
        ),
        (
            1,
            64,
            [
                0x5b, 0xa9, 0x88, 0x50, 0x4d, 0x74, 0x07, 0x3d, 0x91, 0x22, 0x33, 0x44,
            ],
        ),
        (
            7,
            64,
            [
                0x01, 0x92, 0x01, 0x48, 0xc7, 0x09, 0xe0, 0x6f, 0x1f, 0x22, 0x33, 0x44,
            ],
        ),
        (
            8,
            64,
            [
                0x00, 0x49, 0xf7, 0xa5, 0x23, 0xa6, 0x52, 0xf6, 0x96, 0x22, 0x33, 0x44,
            ],
        ),
        (
            5,
            70,
            [
                0x05, 0x4a, 0x37, 0x24, 0x9c, 0xe8, 0x4f, 0x3a, 0x2e, 0xc2, 0x33, 0x44,
            ],
        ),
        (
            95,
            1,
            [
                0x00, 0xff, 0x5a, 0x01, 0x80, 0x3c, 0xc3, 0x7e, 0x11, 0x22, 0x33, 0x45,
            ],
        ),
        (96, 0, before),
        (
            13,
            83,
            [
                0x00, 0xfa, 0xef, 0x6c, 0xa5, 0x20, 0x17, 0xf2, 0x55, 0x1d, 0xc4, 0xeb,
            ],
        ),
    ];
    for (first, n, after) in cases {
        let mut pad = Pad::new(&bytes)?;
        pad.load(&Setup {
            key: &[0x3c],
            count: 4,
            variable: &[0xa0],
        })?;
        let mut buffer = before;
        apply(&mut pad, &mut buffer, first, n)?;
        assert_eq!(rt; buffer, after);
    }
    Ok(())
}

#[test]
fn spans_refused(rt: HostRuntime) -> Result<(), Fail> {
    let mut pad = Pad::new(&[0x0f; 1024])?;
    let mut buffer = [0x77; 65];
    assert_eq!(rt; apply(&mut pad, &mut buffer, 520, 0), Ok(()));
    assert_eq!(rt;
        apply(&mut pad, &mut buffer, 521, 0),
        Err(SpanFault::Outside)
    );
    assert_eq!(rt;
        apply(&mut pad, &mut buffer, 0, 1),
        Err(SpanFault::Generator(GeneratorFault::TakeBeyond))
    );
    pad.load(&Setup {
        key: &[0xa5],
        count: 0,
        variable: &[],
    })?;
    assert_eq!(rt;
        apply(&mut pad, &mut buffer, usize::MAX, usize::MAX),
        Err(SpanFault::Outside)
    );
    assert_eq!(rt;
        apply(&mut pad, &mut buffer, 8, 513),
        Err(SpanFault::Outside)
    );
    assert_eq!(rt;
        apply(&mut pad, &mut buffer, 7, 513),
        Err(SpanFault::Generator(GeneratorFault::TakeBeyond))
    );
    assert_eq!(rt; pad.left(), 512);
    assert_eq!(rt; buffer, [0x77; 65]);
    apply(&mut pad, &mut buffer, 8, 512)?;
    assert_eq!(rt; buffer[0], 0x77);
    assert_eq!(rt; buffer[64], 0xdd);
    Ok(())
}
