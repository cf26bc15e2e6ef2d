use crate::script;
use bmc_base::Bytes;
use std::alloc::{AllocError, Global};
use std::process::Abort;
use std::test::Fail;

// The expected values come from a model in Python that goes other ways. It writes the documents
// with `json.dumps`, takes the i-th number from a closed form of the sequence, and tells whether a
// FRU is at a place by whether the earlier choices of that place are odd in number.

// The configuration of the riser, 131 bytes.
const RISER: &str = concat!(
    r#"{"Name":"Riser","Probe":"xyz.openbmc_project.FruDevice({'BOARD_PRODUCT_NAME': '^RSR1$'})","#,
    r#""Exposes":[{"Name":"X","Type":"Sensor"}]}"#
);

// The configuration of the box, 491 bytes.
const FAN_BOX: &str = concat!(
    r#"{"Name":"Box","Probe":"TRUE","Exposes":[{"Name":"T","Type":"Sensor","Timeout":20},{"Name":"#,
    r#""Tach","Type":"Sensor","ScaleNum":1000},{"Name":"Fan 1","Type":"Fan"},{"Name":"Z","Type":""#,
    r#"Pid.Zone","MinThermalOutput":1000,"FailSafePercent":80},{"Name":"TP","Type":"Stepwise","Zo"#,
    r#"nes":["Z"],"Inputs":["T"],"Reading":[20,40],"Output":[2000,4000]},{"Name":"FP","Type":"Pid"#,
    r#"","Class":"fan","Zones":["Z"],"Inputs":["Tach"],"Outputs":["Fan 1"],"FFGainCoefficient":"0"#,
    r#".01","OutLimitMin":0,"OutLimitMax":100}]}"#
);

// The record that is plugged.
const RECORD: &str = "01000001000000FE010300000000C341434DC452535231C25331C0C0C10000F5";

// The script of a seed, whose conditions are tested here: a table may hold any numbers.
fn sample(rt: &impl Abort, alloc: Global, seed: u32, n: u32) -> Result<Bytes, Fail> {
    assert!(rt; seed < 1 << 31, "the seed {seed}");
    assert!(rt; n <= 100_000, "{n} lines");
    Ok(script(alloc, seed, n)?)
}

// The script that has these lines between its configurations and its last line.
fn framed(alloc: Global, chosen: &str) -> Result<String, AllocError> {
    let mut text = String::from_str(alloc, "config 131\n")?;
    text.push_str(RISER)?;
    text.push_str("\nconfig 491\n")?;
    text.push_str(FAN_BOX)?;
    text.push('\n')?;
    for line in chosen.lines() {
        text.push_str(line)?;
        if line.starts_with("plug ") {
            text.push_str(RECORD)?;
        }
        text.push('\n')?;
    }
    text.push_str("show zones\n")?;
    Ok(text)
}

#[test]
fn short_scripts(rt: HostRuntime) -> Result<(), Fail> {
    // No line; each kind of line at both ends of its choices; a place that is filled, emptied and
    // filled again; and the first lines of seed 7. The record behind a plug is left out.
    let rows = &[
        (7, 0, ""),
        (2_147_483_647, 0, ""),
        (0, 1, "plug 1 81 \n"),
        (18, 1, "lose T\n"),
        (8, 1, "read T 54000\n"),
        (9, 1, "read T 52000\n"),
        (4, 1, "read Tach 2700\n"),
        (12, 1, "read Tach 2100\n"),
        (2, 1, "tick 1\n"),
        (5, 1, "tick 1\n"),
        (2_147_483_647, 1, "read Tach 1900\n"),
        (
            1053,
            5,
            "plug 1 81 \nlose T\nread T 57000\ntick 1\nunplug 1 81\n",
        ),
        (
            13_906,
            9,
            concat!(
                "plug 1 81 \nread T 31000\nread T 44000\nread T 51000\nunplug 1 81\n",
                "lose T\nread T 57000\nplug 1 80 \nplug 1 81 \n"
            ),
        ),
        (
            7,
            27,
            concat!(
                "tick 1\ntick 1\nread T 48000\nread T 54000\nread T 31000\nread T 25000\n",
                "read T 54000\ntick 1\nlose T\nlose T\ntick 1\nread T 23000\ntick 1\n",
                "read T 54000\ntick 1\nread T 22000\nread Tach 1500\nread T 34000\ntick 1\n",
                "read T 40000\ntick 1\nread T 47000\nread T 59000\nread Tach 2800\ntick 1\n",
                "plug 1 82 \nread T 59000\n"
            ),
        ),
    ];
    for &(seed, n, chosen) in rows {
        let script = sample(&rt, rt.alloc(), seed, n)?;
        let wanted = framed(rt.alloc(), chosen)?;
        assert_eq!(rt; script.as_slice(), wanted.as_bytes(), "of seed {seed}");
    }
    Ok(())
}

// The 64-bit hash FNV-1a.
fn fnv_1a(bytes: &[u8]) -> u64 {
    bytes.iter().fold(0xcbf2_9ce4_8422_2325, |hash: u64, byte| {
        (hash ^ u64::from(*byte)).wrapping_mul(0x0000_0100_0000_01b3)
    })
}

#[test]
fn long_scripts(rt: HostRuntime) -> Result<(), Fail> {
    let rows = &[
        (7, 60, 1423, 0xf8f8_6603_26d3_f69b),
        (7, 1000, 13_829, 0x99ca_a41d_b6ca_b55f),
        (7, 20_000, 269_093, 0x122a_efed_4a4e_82e3),
        (7, 100_000, 1_339_684, 0xe2f5_c450_3183_a5a7),
        (0, 1000, 14_253, 0x2ff2_0221_3214_1ebc),
        (1, 1000, 14_188, 0xaa1e_e8ea_b87e_645e),
        (123_456_789, 5000, 68_351, 0x5f3f_fdde_e558_fcd6),
        (2_147_483_647, 1000, 14_336, 0x74e1_a6be_048d_58fe),
        (2_147_483_647, 100_000, 1_340_448, 0x7490_7884_4ab5_6569),
    ];
    for &(seed, n, length, hash) in rows {
        let script = sample(&rt, rt.alloc(), seed, n)?;
        let bytes = script.as_slice();
        assert_eq!(rt; bytes.len(), length, "of seed {seed}");
        assert_eq!(rt; fnv_1a(bytes), hash, "of seed {seed}");
        // Five are not of chosen lines: those of two `config` lines, two blocks and the last line.
        let newlines = bytes.iter().filter(|byte| **byte == b'\n').count();
        assert_eq!(rt; newlines, n as usize + 5, "of seed {seed}");
    }
    Ok(())
}
