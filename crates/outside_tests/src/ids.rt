// Ids of ChaCha20 and of a script.
use std::test::Fail;
use storm_outside::{ChaChaMaker, IdMaker, Ids, ScriptIds, Words};

// ids of a key of zeros, from the key streams that OpenSSL's `chacha20` writes
#[test]
fn ids_of_chacha_are_those_of_openssl(rt: HostRuntime) -> Result<(), Fail> {
    // source, number of the id, the id
    let table = [
        (0, 0, 0xade0_b876_903d_f1a0),
        (0, 1, 0xe56a_5d40_28bd_8653),
        (0, 8, 0xbee7_079f_7a38_5155),
        (0, 9, 0x7c97_ba98_0d08_2d73),
        (1, 0, 0xd6df_3fef_fb78_15c6),
        (1, 8, 0xe4e5_0553_b219_ff4a),
        (3, 0, 0xf02b_2f02_4317_5876),
        (u32::MAX, 1, 0xb8ab_9c4e_9310_1fbf),
    ];
    for (source, number, want) in table {
        let mut ids = ChaChaMaker { key: [0; 32] }.make(source)?;
        for _ in 0..number {
            let _ = ids.next();
        }
        assert_eq!(rt; ids.next(), want, "id {number} of source {source}");
    }
    Ok(())
}

#[test]
fn words_of_a_script_and_beyond_it(rt: HostRuntime) -> Result<(), Fail> {
    let alloc = rt.alloc();
    let mut maker = ScriptIds::new(alloc);
    maker.add(0, Words::from_vec([0, 9, 9].to_vec(alloc)?))?;
    // source, its first five words
    let table = [
        (0, [0, 9, 9, 0x1_0000_0000, 0x1_0000_0001]),
        (
            1,
            [
                0x2_0000_0000,
                0x2_0000_0001,
                0x2_0000_0002,
                0x2_0000_0003,
                0x2_0000_0004,
            ],
        ),
    ];
    for (source, words) in table {
        let mut ids = maker.make(source)?;
        for want in words {
            assert_eq!(rt; ids.next(), want, "source {source}");
        }
    }
    assert_eq!(rt; maker.make(u32::MAX)?.next(), 0, "2^64 wraps");
    Ok(())
}
