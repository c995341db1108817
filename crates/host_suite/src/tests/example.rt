//! The example addon, which tells no plan, beside an addon that follows its script.
use super::*;
use example_addon::ExampleAddon;

/// Two addons. The second one heeds no script.
const BOTH_ADDONS: &[u8] =
    br#"{"version":9,"workers":0,"addons":[{"name":"scripted","entries":[[["create_array",0],["get_array_length",0,1]]]},{"name":"example","entries":[[["get_null",0]]]}],"threads":[]}"#;

/// The reference has the count 2, so it is counted down twice; a third time is refused (9). So the payload of the function is 2, its
/// frame sets the element at 2, and the array then has the length 3.
const BOTH_ADDONS_TRACE: &str =
    "1 env opened 0 9\n2 env begin 0 init:0.0\n3 env create_array 0 handle\n4 env get_array_length 0 0\n5 env end 0 -\n6 env begin 0 init:1.0\n7 env create_array 0 handle\n8 env create_reference 0 ref\n9 env reference_unref 0 1\n10 env reference_unref 0 0\n11 env reference_unref 9 -\n12 env create_function 0 handle\n13 env begin 0 call:1.1\n14 env set_element 0 -\n15 env end 0 handle\n16 env get_array_length 0 3\n17 env end 0 -\n18 env go 0 -\n19 env loop_end 0 idle\n20 env drain 0 0\n21 env finals 0 -\n22 env gone 0 -\n";

/// The status of a run with both addons, and what it writes.
fn run_of_both<R: Abort + Threads + Wait + Sync>(rt: &R, alloc: Global) -> (u8, String) {
    let mut addons: Vec<Box<dyn Addon>> = Vec::new(alloc);
    let scripted = given(rt, Box::new(alloc, ScriptAddon::blank(alloc)));
    given(rt, addons.push(scripted));
    let example = given(rt, Box::new(alloc, ExampleAddon::new()));
    given(rt, addons.push(example));
    run_of(rt, alloc, BOTH_ADDONS, &mut addons)
}

#[test]
fn the_example_asks_by_what_it_was_told(rt: HostRuntime) {
    let (status, written) = run_of_both(&rt, rt.alloc());
    assert_eq!(rt; (status, written.as_str()), (0, BOTH_ADDONS_TRACE));
}
