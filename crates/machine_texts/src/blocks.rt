//! The free blocks.

ghost use Rattle.std.specs.List.{flat_map};
ghost use Rattle.control_files.specs.Strings.{AddsBytes};
ghost use Rattle.machine_texts.specs.Blocks.{block_text, blocks_text, spaced_block};

use cpu_part::BootName;
use mem_machine::Machine;
use std::alloc::AllocError;
use zone_blocks::block::Block;
use zone_blocks::walk::Walk;

/// Adds a line with each free block, its order and its first frame, by order and then by address; `none` if there is
/// none. It fails only if memory runs out.
pub fn write_blocks<N: BootName>(machine: &Machine<N>, text: &mut String) -> Result<(), AllocError>
    ensures { AddsBytes result text.old text.new (blocks_text machine.now.blocks) }
{
    let mut blocks = machine.blocks();
    let Some(first) = blocks.next() else {
        return text.push_str("none\n");
    };
    write_block(first, text)?;
    write_others(blocks, text)?;
    text.push_str("\n")
}

// A free block: its order and its first frame.
fn write_block(block: Block, text: &mut String) -> Result<(), AllocError>
    ensures { AddsBytes result text.old text.new (block_text block) }
{
    let order = block.order.exponent();
    let at = block.at;
    write!(text, "{order}:{at}")
}

// More free blocks, each after a space.
fn write_others(blocks: Walk<'_>, text: &mut String) -> Result<(), AllocError>
    ensures { AddsBytes result text.old text.new (flat_map spaced_block blocks.entry) }
{
    for block in blocks {
        text.push_str(" ")?;
        write_block(block, text)?;
    }
    Ok(())
}
