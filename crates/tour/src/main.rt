// A tour of the library, which shows what it can do: it codes the colour numbers of a mill by a pile of codings, codes them back,
// shows a refusal and the laws of piles, keeps small releases of loom records over piles and over K-Ciphers, and reads three spoilt
// drafts.
#![tactic(auto)]

mod colours;
mod drafts;
mod loom;
mod refusals;
mod sheds;

use colours::{colour_coding, hands_coding, tell_all};
use drafts::show_spoilt;
use loom::keep_release;
use piles::pile::Pile;
use release::column_codings::ColumnCodings;
use sheds::{colour_cipher, weaver_cipher};

fn main(rt: HostRuntime) -> anyhow::Result<()> {
    show_codings(&rt)?;
    show_ciphers(&rt)?;
    show_spoilt(&rt)?;
    Ok(())
}

fn show_codings(rt: &HostRuntime) -> anyhow::Result<()> {
    let yarn = colour_coding(rt.alloc())?;
    tell_all(rt, &yarn)?;
    let hands = hands_coding(rt.alloc())?;
    keep_release(rt, &ColumnCodings { yarn, hands })
}

// The same calls over two K-Ciphers, and over piles of them.
fn show_ciphers(rt: &HostRuntime) -> anyhow::Result<()> {
    let heap = rt.alloc();
    println!(rt; "yarn by K-Cipher Flex at width 24, hands by K-Cipher CPA at width 33:")?;
    let yarn = colour_cipher(heap)?;
    let hands = weaver_cipher(heap)?;
    keep_release(
        rt,
        &ColumnCodings {
            yarn: &yarn,
            hands: &hands,
        },
    )?;
    println!(rt; "the first narrowed to 749, the second turned:")?;
    keep_release(
        rt,
        &ColumnCodings {
            yarn: Pile::leaf(yarn).narrowed(heap, 749)?,
            hands: Pile::leaf(hands).turned(heap)?,
        },
    )
}
