ghost use Rattle.std.specs.Prelude.{◌≡◌, ◌≤ℤ◌, pos, All};
ghost use Rattle.ctl_face.specs.Ranges.{IsBetween, IsValid, IsValidPid, IsValidRow, IsValidSample};
ghost use Rattle.ctl_face.specs.Ranges.{IsValidStep};
ghost use Rattle.ctl_face.specs.declared.setting.PidClass.TheVariants.{Fan};

use crate::blank::BLANK;
use crate::{PidBox, StepBox};
use bmc_base::Milli;
use ctl_face::{Controller, CtlState, PidClass, PidSetting, Sample, Setting, StepRow, StepSetting};
use std::process::Abort;
use std::test::Fail;

// The states behind each step were computed from the rules of a step by a program in Python, whose
// whole numbers have no end and whose `//` rounds down, and again by one in Rust: both agree.

const PLAIN: PidSetting = PidSetting {
    class: PidClass::Temp,
    setpoint: Milli(0),
    p: 0,
    i: 0,
    d: 0,
    ff_gain: 0,
    ff_off: Milli(0),
    i_min: Milli(0),
    i_max: Milli(0),
    out_min: Milli(0),
    out_max: Milli(100_000),
    slew_neg: Milli(0),
    slew_pos: Milli(0),
};

// The input and the setpoint, and behind the step the integral, the error and the output.
macro_rules! pid_steps {
    ($($input:literal $setpoint:literal => $integral:literal $error:literal $output:literal;)*) => {
        &[$((
            Sample { input: Milli($input), setpoint: Milli($setpoint) },
            CtlState {
                integral: $integral,
                error: Some($error),
                base: None,
                output: Some($output),
            },
        )),*]
    };
}

// The input, and behind the step the base and the output.
macro_rules! steps {
    ($($input:literal => $base:literal $output:literal;)*) => {
        &[$((
            Sample { input: Milli($input), setpoint: Milli(0) },
            CtlState {
                integral: 0,
                error: None,
                base: Some($base),
                output: Some($output),
            },
        )),*]
    };
}

const PIDS: &[(PidSetting, &[(Sample, CtlState)])] = &[
    // a temperature with slewed rises
    (
        PidSetting {
            setpoint: Milli(30_000),
            p: -300_000,
            i: -200_000,
            i_min: Milli(-100_000),
            i_max: Milli(100_000),
            slew_pos: Milli(5_000),
            ..PLAIN
        },
        pid_steps! {
            40_001 30_000 => 2_000 -10_001 5_000;
            80_001 30_000 => -5_000 -50_001 10_000;
            29_999 30_000 => 1 1 0;
        },
    ),
    // each division below zero, no slew
    (
        PidSetting {
            setpoint: Milli(45_500),
            p: 333_333,
            i: -123_457,
            d: -7_777_777,
            ff_gain: -1,
            ff_off: Milli(-7),
            i_min: Milli(-50_000),
            i_max: Milli(50_000),
            out_min: Milli(-100_000),
            ..PLAIN
        },
        pid_steps! {
            45_501 45_500 => 0 -1 -2;
            45_499 45_500 => -1 1 -18;
            45_500 45_500 => -1 0 5;
            60_123 45_500 => 1_804 -14_623 100_000;
            31_007 45_500 => 14 14_493 -100_000;
            45_777 45_500 => 48 -277 100_000;
            45_776 45_500 => 82 -276 -19;
            45_500 45_500 => 82 0 -2_066;
        },
    ),
    // a fan with all parts and slewed falls
    (
        PidSetting {
            class: PidClass::Fan,
            p: 12_345,
            i: 6_789,
            d: -1_001,
            ff_gain: 10_007,
            ff_off: Milli(-250),
            i_min: Milli(-3_000),
            i_max: Milli(30_000),
            out_min: Milli(1_000),
            slew_neg: Milli(-15_005),
            ..PLAIN
        },
        pid_steps! {
            200_000 250_000 => 2_532 50_000 3_149;
            240_001 250_000 => 5_437 9_999 5_560;
            2_600_007 200_000 => 30_000 -2_400_007 4_059;
            210_000 200_000 => 8_067 -10_000 7_943;
            0 200_000 => 8_097 200_000 10_566;
            150_000 200_001 => 11_629 50_001 12_246;
        },
    ),
    // a fan whose falls and rises are slewed
    (
        PidSetting {
            class: PidClass::Fan,
            p: 25_000,
            i: 40_000,
            d: 3,
            ff_gain: 1_000_003,
            ff_off: Milli(-333),
            i_max: Milli(100_000),
            slew_neg: Milli(-15_005),
            slew_pos: Milli(15_009),
            ..PLAIN
        },
        pid_steps! {
            2_000 20_000 => 19_739 18_000 20_189;
            2_500 90_000 => 19_502 87_500 21_689;
            9_000 90_000 => 21_164 81_000 23_189;
            9_000 10_000 => 24_664 1_000 24_689;
            9_000 10_000 => 26_164 1_000 26_189;
            0 10_000 => 27_439 10_000 27_689;
            1 10_001 => 28_939 10_000 29_189;
        },
    ),
    // a margin, by its change alone
    (
        PidSetting {
            class: PidClass::Margin,
            setpoint: Milli(5_000),
            d: 999_999,
            out_min: Milli(-1_000_000_000),
            out_max: Milli(1_000_000_000),
            ..PLAIN
        },
        pid_steps! {
            5_000 5_000 => 0 0 0;
            4_999 5_000 => 0 1 0;
            5_001 5_000 => 0 -1 -2;
            -70_000 5_000 => 0 75_000 75_000;
            123_456 5_000 => 0 -118_456 -193_456;
            123_456 5_000 => 0 -118_456 0;
        },
    ),
    // the largest numbers
    (
        PidSetting {
            setpoint: Milli(1_000_000_000),
            p: 1_000_000_000_000,
            i: 1_000_000_000_000,
            d: 1_000_000_000_000,
            ff_gain: 1_000_000_000_000,
            ff_off: Milli(1_000_000_000),
            i_min: Milli(-1_000_000_000),
            i_max: Milli(1_000_000_000),
            out_min: Milli(-1_000_000_000),
            out_max: Milli(1_000_000_000),
            ..PLAIN
        },
        pid_steps! {
            2_000_000_000_000_000 1_000_000_000
                => -1_000_000_000 -1_999_999_000_000_000 -1_000_000_000;
            -2_000_000_000_000_000 1_000_000_000
                => 1_000_000_000 2_000_001_000_000_000 1_000_000_000;
            2_000_000_000_000_000 1_000_000_000
                => -1_000_000_000 -1_999_999_000_000_000 -1_000_000_000;
            1_000_000_000 1_000_000_000 => -1_000_000_000 0 1_000_000_000;
            1_000_000_001 1_000_000_000 => -1_000_000_000 -1 1_000_000_000;
        },
    ),
    // the largest numbers of a fan
    (
        PidSetting {
            class: PidClass::Fan,
            p: -1_000_000_000_000,
            i: -1_000_000_000_000,
            d: -1_000_000_000_000,
            ff_gain: -1_000_000_000_000,
            ff_off: Milli(-1_000_000_000),
            i_min: Milli(-1_000_000_000),
            i_max: Milli(1_000_000_000),
            slew_neg: Milli(-1_000_000_000),
            slew_pos: Milli(1_000_000_000),
            ..PLAIN
        },
        pid_steps! {
            2_000_000_000_000_000 1_000_000_000 => -1_000_000_000 -1_999_999_000_000_000 100_000;
            -2_000_000_000_000_000 -1_000_000_000 => 1_000_000_000 1_999_999_000_000_000 0;
            2_000_000_000_000_000 -1_000_000_000 => -1_000_000_000 -2_000_001_000_000_000 100_000;
            0 0 => 0 0 0;
            -2_000_000_000_000_000 1_000_000_000 => 1_000_000_000 2_000_001_000_000_000 0;
        },
    ),
    // products to both sides of the edge of 64 bits, whose shares nearly cancel
    (
        PidSetting {
            p: 922_337_203_686,
            i: 123_457,
            d: -7_001,
            ff_gain: -922_337_203_685,
            ff_off: Milli(1_000_000),
            i_min: Milli(-1_000_000_000),
            i_max: Milli(1_000_000_000),
            out_min: Milli(-1_000_000_000),
            out_max: Milli(1_000_000_000),
            ..PLAIN
        },
        pid_steps! {
            -1_000_000 8_999_999 => 1_234_569 9_999_999 1_234_578;
            -1_000_001 8_999_999 => 2_469_139 10_000_000 3_391_485;
            -999_998 9_000_001 => 3_703_708 9_999_999 1_859_042;
            -1_000_000 9_000_001 => 4_938_278 10_000_001 4_938_286;
            -1_000_000 -11_000_001 => 3_703_707 -10_000_001 3_843_716;
            -1_000_000 -10_999_999 => 2_469_137 -9_999_999 2_469_125;
        },
    ),
    // the same of a fan, by the change
    (
        PidSetting {
            class: PidClass::Fan,
            p: 922_337_203_690,
            i: -77,
            d: -92_233_720_369,
            ff_gain: 10_000,
            ff_off: Milli(500),
            i_min: Milli(-100_000_000),
            i_max: Milli(100_000_000),
            ..PLAIN
        },
        pid_steps! {
            1_000_000 1_000_000 => 0 0 10_005;
            -8_999_999 1_000_000 => -77 9_999_999 9_927;
            1_500_001 1_500_001 => -77 0 100_000;
            -6_000_000 4_000_000 => -154 10_000_000 39_851;
            1_999_999 1_999_999 => -154 0 100_000;
            13_000_000 3_000_001 => -78 -9_999_999 29_926;
        },
    ),
    // the integral at its limits
    (
        PidSetting {
            setpoint: Milli(70_000),
            i: -500_001,
            i_min: Milli(-1_000),
            i_max: Milli(20_001),
            out_min: Milli(-2_000),
            out_max: Milli(15_000),
            ..PLAIN
        },
        pid_steps! {
            71_000 70_000 => 500 -1_000 500;
            90_000 70_000 => 10_500 -20_000 10_500;
            120_000 70_000 => 20_001 -50_000 15_000;
            69_999 70_000 => 20_000 1 15_000;
            60_000 70_000 => 14_999 10_000 14_999;
            20_000 70_000 => -1_000 50_000 -1_000;
            70_001 70_000 => -1_000 -1 -1_000;
            70_003 70_000 => -999 -3 -999;
        },
    ),
    // an integral that is set by the slew, at its limits
    (
        PidSetting {
            setpoint: Milli(70_000),
            p: -2_000_001,
            i: -1,
            i_min: Milli(-3_000),
            i_max: Milli(3_000),
            slew_neg: Milli(-1),
            slew_pos: Milli(7),
            ..PLAIN
        },
        pid_steps! {
            72_000 70_000 => 0 -2_000 4_000;
            72_000 70_000 => 0 -2_000 4_000;
            75_000 70_000 => -3_000 -5_000 4_007;
            69_000 70_000 => 3_000 1_000 4_006;
            69_000 70_000 => 3_000 1_000 4_005;
            70_001 70_000 => 3_000 -1 4_004;
        },
    ),
    // a fan at ten steps a second
    (
        PidSetting {
            class: PidClass::Fan,
            i: -999,
            d: -33_333,
            i_min: Milli(-100_000),
            i_max: Milli(100_000),
            ..PLAIN
        },
        pid_steps! {
            1 0 => 0 -1 0;
            10_010 0 => 0 -10_010 3_336;
            10_011 0 => 1 -10_011 1;
            10_009 0 => 1 -10_009 0;
            0 10_009 => 0 10_009 0;
            55 -55 => 0 -110 3_372;
        },
    ),
    // a controller that is steady, moves by its input, by its setpoint, and is steady again
    (
        PidSetting {
            setpoint: Milli(50_000),
            p: -1_000_000,
            i: -500_000,
            i_min: Milli(-1_000),
            i_max: Milli(3_000),
            ..PLAIN
        },
        pid_steps! {
            52_000 50_000 => 1_000 -2_000 3_000;
            52_000 50_000 => 2_000 -2_000 4_000;
            52_000 50_000 => 3_000 -2_000 5_000;
            52_000 50_000 => 3_000 -2_000 5_000;
            52_000 50_000 => 3_000 -2_000 5_000;
            51_000 50_000 => 3_000 -1_000 4_000;
            52_000 50_000 => 3_000 -2_000 5_000;
            52_000 50_000 => 3_000 -2_000 5_000;
            52_000 51_000 => 3_000 -1_000 4_000;
            51_000 51_000 => 3_000 0 3_000;
            51_000 51_000 => 3_000 0 3_000;
            51_000 51_000 => 3_000 0 3_000;
            50_000 51_000 => 2_500 1_000 1_500;
        },
    ),
    // one output alone
    (
        PidSetting {
            setpoint: Milli(-12_345),
            p: 17,
            i: 19,
            d: 23,
            i_min: Milli(5),
            i_max: Milli(5),
            out_min: Milli(777),
            out_max: Milli(777),
            slew_pos: Milli(3),
            ..PLAIN
        },
        pid_steps! {
            0 -12_345 => 5 -12_345 777;
            -50_000 -12_345 => 5 37_655 777;
            -12_344 -12_345 => 5 -1 777;
        },
    ),
];

// Readings and outputs of rows, how far the reading may rise and fall, and steps.
struct StepCase {
    rows: &'static [(i64, i64)],
    positive: i64,
    negative: i64,
    steps: &'static [(Sample, CtlState)],
}

const STEPS: &[StepCase] = &[
    // two rows
    StepCase {
        rows: &[(20_000, 2_000_000), (40_000, 4_000_000)],
        positive: 0,
        negative: 2_000,
        steps: steps! {
            45_000 => 45_000 4_000_000;
            44_000 => 45_000 4_000_000;
            42_999 => 42_999 4_000_000;
            40_999 => 42_999 4_000_000;
            39_999 => 39_999 2_000_000;
            10_000 => 10_000 2_000_000;
        },
    },
    // rows out of order
    StepCase {
        rows: &[(30_000, 3_000), (50_000, 5_000), (10_000, 1_000)],
        positive: 0,
        negative: 0,
        steps: steps! {
            5_000 => 5_000 3_000;
            29_999 => 29_999 3_000;
            30_000 => 30_000 3_000;
            49_999 => 49_999 3_000;
            50_000 => 50_000 1_000;
            60_000 => 60_000 1_000;
            20_000 => 20_000 3_000;
            20_000 => 20_000 3_000;
        },
    },
    // a band on both sides
    StepCase {
        rows: &[(-10_000, 100), (0, -200), (0, 300), (10_000, 400)],
        positive: 1_500,
        negative: 500,
        steps: steps! {
            -1 => -1 100;
            499 => -1 100;
            1_499 => -1 100;
            1_500 => 1_500 300;
            1_000 => 1_500 300;
            999 => 999 300;
            2_499 => 999 300;
            2_500 => 2_500 300;
            -1_000_000 => -1_000_000 100;
            10_000 => 10_000 400;
        },
    },
    // one row
    StepCase {
        rows: &[(0, -7)],
        positive: 0,
        negative: 0,
        steps: steps! {
            1 => 1 -7;
            -1 => -1 -7;
            0 => 0 -7;
            2_000_000_000_000_000 => 2_000_000_000_000_000 -7;
            -2_000_000_000_000_000 => -2_000_000_000_000_000 -7;
        },
    },
    // all rows
    StepCase {
        rows: &[
            (0, 50_000),
            (1_000, 49_000),
            (2_000, 48_000),
            (3_000, 47_000),
            (4_000, 46_000),
            (5_000, 45_000),
            (6_000, 44_000),
            (7_000, 43_000),
            (8_000, 42_000),
            (9_000, 41_000),
            (10_000, 40_000),
            (11_000, 39_000),
            (12_000, 38_000),
            (13_000, 37_000),
            (14_000, 36_000),
            (15_000, 35_000),
            (16_000, 34_000),
            (17_000, 33_000),
            (18_000, 32_000),
            (19_000, 31_000),
        ],
        positive: 1_000_000_000,
        negative: 1_000_000_000,
        steps: steps! {
            19_000 => 19_000 31_000;
            18_999 => 19_000 31_000;
            -981_000 => 19_000 31_000;
            -981_001 => 19_000 31_000;
            1_000_000_000 => 19_000 31_000;
        },
    },
    // readings that fall
    StepCase {
        rows: &[
            (1_000_000_000, 1_000_000_000),
            (-1_000_000_000, -1_000_000_000),
        ],
        positive: 0,
        negative: 1,
        steps: steps! {
            -1_000_000_001 => -1_000_000_001 1_000_000_000;
            -1_000_000_000 => -1_000_000_000 1_000_000_000;
            999_999_999 => 999_999_999 1_000_000_000;
            1_000_000_000 => 1_000_000_000 -1_000_000_000;
            999_999_999 => 1_000_000_000 -1_000_000_000;
            999_999_998 => 999_999_998 1_000_000_000;
        },
    },
];

const BILLION: i64 = 1_000_000_000;

const TRILLION: i64 = 1_000_000_000_000;

// Stops a test whose number is out of range.
fn check(rt: &impl Abort, low: i64, high: i64, number: &i64)
    ensures { IsBetween low high number.now }
{
    assert!(rt; low <= *number);
    assert!(rt; *number <= high);
}

fn check_order(rt: &impl Abort, low: Milli, high: Milli)
    ensures { low.0 ≤ℤ high.0 }
{
    assert!(rt; low.0 <= high.0);
}

fn check_percent(rt: &impl Abort, setting: &PidSetting)
    ensures { setting.now.class ≡ Fan →
        (pos 0 ≤ℤ setting.now.out_min.0) × (setting.now.out_max.0 ≤ℤ pos 100000) }
{
    match setting.class {
        PidClass::Fan => {
            check(rt, 0, 100_000, &setting.out_min.0);
            check(rt, 0, 100_000, &setting.out_max.0)
        }
        PidClass::Temp | PidClass::Margin => {}
    }
}

fn check_pid(rt: &impl Abort, setting: &PidSetting)
    ensures { IsValidPid setting.now }
{
    check(rt, -BILLION, BILLION, &setting.setpoint.0);
    check(rt, -TRILLION, TRILLION, &setting.p);
    check(rt, -TRILLION, TRILLION, &setting.i);
    check(rt, -TRILLION, TRILLION, &setting.d);
    check(rt, -TRILLION, TRILLION, &setting.ff_gain);
    check(rt, -BILLION, BILLION, &setting.ff_off.0);
    check(rt, -BILLION, BILLION, &setting.i_min.0);
    check(rt, -BILLION, BILLION, &setting.i_max.0);
    check(rt, -BILLION, BILLION, &setting.out_min.0);
    check(rt, -BILLION, BILLION, &setting.out_max.0);
    check(rt, -BILLION, 0, &setting.slew_neg.0);
    check(rt, 0, BILLION, &setting.slew_pos.0);
    check_order(rt, setting.i_min, setting.i_max);
    check_order(rt, setting.out_min, setting.out_max);
    check_percent(rt, setting);
}

fn check_rows(rt: &impl Abort, rows: &[StepRow])
    ensures { All IsValidRow rows.now }
{
    for row in rows {
        check(rt, -BILLION, BILLION, &row.reading.0);
        check(rt, -BILLION, BILLION, &row.output.0);
    }
}

fn check_step(rt: &impl Abort, setting: &StepSetting)
    ensures { IsValidStep setting.now }
{
    assert!(rt; 1 <= setting.count);
    assert!(rt; setting.count <= 20);
    check_rows(rt, &setting.rows[..setting.count as usize]);
    check(rt, 0, BILLION, &setting.positive.0);
    check(rt, 0, BILLION, &setting.negative.0);
}

fn check_sample(rt: &impl Abort, sample: &Sample)
    ensures { IsValidSample sample.now }
{
    check(rt, -2000 * TRILLION, 2000 * TRILLION, &sample.input.0);
    check(rt, -BILLION, BILLION, &sample.setpoint.0);
}

// Loads the setting, and compares the output and the state of each step.
fn replay<C: Controller>(
    rt: &impl Abort,
    controller: &mut C,
    setting: &Setting,
    steps: &[(Sample, CtlState)],
)
    requires { IsValid setting.now }
{
    assert!(rt; controller.kind().is(setting.kind()));
    controller.load(setting);
    assert_eq!(rt; controller.state(), BLANK);
    for (sample, state) in steps {
        check_sample(rt, sample);
        let output = controller.step(*sample);
        assert_eq!(rt; Some(output.0), state.output, "at {sample:?}");
        assert_eq!(rt; controller.state(), *state, "at {sample:?}");
    }
}

#[test]
fn pid_boxes(rt: HostRuntime) -> Result<(), Fail> {
    let mut own = PidBox::new();
    let mut boxed: Box<dyn Controller> = Box::new(rt.alloc(), PidBox::new())?;
    for (setting, steps) in PIDS {
        check_pid(&rt, setting);
        let setting = Setting::Pid(*setting);
        replay(&rt, &mut own, &setting, steps);
        replay(&rt, &mut boxed, &setting, steps);
    }
    own.clear();
    boxed.clear();
    assert_eq!(rt; own.state(), BLANK);
    assert_eq!(rt; boxed.state(), BLANK);
    Ok(())
}

// The setting with these rows first.
fn step_setting(rt: &impl Abort, case: &StepCase) -> StepSetting {
    let unused = StepRow {
        reading: Milli(0),
        output: Milli(0),
    };
    let mut rows = [unused; 20];
    assert!(rt; case.rows.len() <= 20);
    for (at, (reading, output)) in case.rows.iter().enumerate() {
        rows[at] = StepRow {
            reading: Milli(*reading),
            output: Milli(*output),
        };
    }
    StepSetting {
        rows,
        count: case.rows.len() as u8,
        positive: Milli(case.positive),
        negative: Milli(case.negative),
    }
}

#[test]
fn step_boxes(rt: HostRuntime) -> Result<(), Fail> {
    let mut own = StepBox::new();
    let mut boxed: Box<dyn Controller> = Box::new(rt.alloc(), StepBox::new())?;
    for case in STEPS {
        let setting = step_setting(&rt, case);
        check_step(&rt, &setting);
        let setting = Setting::Stepwise(setting);
        replay(&rt, &mut own, &setting, case.steps);
        replay(&rt, &mut boxed, &setting, case.steps);
    }
    own.clear();
    boxed.clear();
    assert_eq!(rt; own.state(), BLANK);
    assert_eq!(rt; boxed.state(), BLANK);
    Ok(())
}
