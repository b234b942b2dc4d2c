//! Limits on the items of a face and on the steps of an edit, as numbers: three carriers, sixteen loops on a needle, and eight
//! needles with their own sliders, in a made program of 2,000 rows and in one of 20,000, in blocks of 64 lines. An edit takes less still:
//! at most `9 (H + 2) B` steps, where `H` is the greatest height of a tree of the blocks and `B` the most items of a face.
ghost use Rattle.std.specs.Prelude.{◌≡◌, ◌+◌, ◌*◌};
ghost use Rattle.face_data.specs.Items.{most_items};
ghost use Rattle.tree_shape.specs.Fewest.{highest};

use std::test::Fail;

fn items_of_a_face() -> u64
    ensures { result ≡ most_items 3 16 16 }
{
    9_266
}

fn steps_in_282_blocks() -> u64
    ensures { result ≡ 16 * (highest 282 + 2) * (most_items 3 16 16 + 1) }
{
    1_927_536
}

fn steps_in_2813_blocks() -> u64
    ensures { result ≡ 16 * (highest 2813 + 2) * (most_items 3 16 16 + 1) }
{
    2_668_896
}

#[test]
fn limits_of_made_programs(rt: HostRuntime) -> Result<(), Fail> {
    assert!(rt; items_of_a_face() < steps_in_282_blocks());
    assert!(rt; steps_in_282_blocks() < steps_in_2813_blocks());
    Ok(())
}
