//! The values of jobs, which were worked out apart from the program.
use async_work::Job;
use napi_types::JobSpec;
use script_addon::ScriptJob;

#[test]
fn jobs_have_their_values(rt: HostRuntime) {
    for (spec, value) in [
        (JobSpec::Sum(0), 0),
        (JobSpec::Sum(1), 1),
        (JobSpec::Sum(4), 10),
        (JobSpec::Sum(1_000_000), 500_000_500_000),
        (JobSpec::Sum(4_294_967_296), 9_223_372_039_002_259_456),
        (JobSpec::Sum(u64::MAX), 9_223_372_036_854_775_808),
        (JobSpec::Mix(0, 0), 0),
        (JobSpec::Mix(u64::MAX, 0), u64::MAX),
        (JobSpec::Mix(0, 1), 1_442_695_040_888_963_407),
        (JobSpec::Mix(1, 1), 7_806_831_264_735_756_412),
        (JobSpec::Mix(u64::MAX, 1), 13_525_302_890_751_722_018),
        (JobSpec::Mix(1, 2), 9_396_908_728_118_811_419),
        (JobSpec::Mix(1_000_000, 1), 10_961_112_038_586_443_407),
        (JobSpec::Mix(1, 1_000_000), 14_884_097_605_143_612_481),
    ] {
        assert_eq!(rt; ScriptJob::of(spec).execute(), value, "{spec:?}");
    }
}
