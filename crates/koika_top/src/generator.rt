//! Program: the pipeline design of `gen`.

ghost use Rattle.std.specs.Prelude.{◌≡◌, ◌≤◌, ◌<◌, ◌+◌, ◌++◌, ◌^◌, IfOk, OnOk};
ghost use Rattle.koika_top.specs.Generator.{ascending, descending, filled, filled_byte, pipeline};

use itoa::Buffer;
use kw_bits::{NoMemory, Text};
use std::alloc::Global;

// Templates, in which `#` stands for a stage's number, `@` for that of the stage after it, and `/` for a line feed.
const STAGE_REGISTERS: &[u8] = b"reg v# : bits 1 = 1'd0 ;/reg d# : bits 32 = 32'd0 ;/";

const OTHER_REGISTERS: &[u8] = b"reg total : bits 32 = 32'd0 ;/reg feed : bits 32 = 32'd0 ;/";

const DRAIN: &[u8] =
    b"rule drain {/if read0 ( v# ) {/write0 ( v# , 1'd0 ) ;/write0 ( total , read0 ( total ) + read0 ( d# ) ) }/else {/abort }/}/";

const MOVE: &[u8] =
    b"rule move# {/if read0 ( v# ) & ~ read1 ( v@ ) {/write0 ( v# , 1'd0 ) ;/write1 ( v@ , 1'd1 ) ;/write1 ( d@ , read0 ( d# ) + 32'd1 ) }/else {/abort }/}/";

const FILL: &[u8] =
    b"rule fill {/if ~ read1 ( v0 ) {/write1 ( v0 , 1'd1 ) ;/write1 ( d0 , read0 ( feed ) ) ;/write0 ( feed , read0 ( feed ) + 32'd1 ) }/else {/abort }/}/";

const SCHEDULE_BEGIN: &[u8] = b"schedule {/drain ;/";

const SCHEDULED_MOVE: &[u8] = b"move# ;/";

const SCHEDULE_END: &[u8] = b"fill ;/}/";

/// The pipeline design of that many stages, as it is printed.
pub(crate) fn pipeline(alloc: Global, stages: u32) -> Result<Text, NoMemory>
    requires { stages ≤ 100 }
    ensures { IfOk result (λ text. text ≡ pipeline stages) }
{
    let mut text = Text::new(alloc);
    push_ascending(&mut text, STAGE_REGISTERS, stages + 1)?;
    push_filled(&mut text, OTHER_REGISTERS, stages)?;
    push_filled(&mut text, DRAIN, stages)?;
    push_descending(&mut text, MOVE, stages)?;
    push_filled(&mut text, FILL, stages)?;
    push_filled(&mut text, SCHEDULE_BEGIN, stages)?;
    push_descending(&mut text, SCHEDULED_MOVE, stages)?;
    push_filled(&mut text, SCHEDULE_END, stages)?;
    Ok(text)
}

// A template for each of the stages below a number, the first one first.
fn push_ascending(text: &mut Text, template: &[u8], stages: u32) -> Result<(), NoMemory>
    requires { stages < 2 ^ 31 }
    ensures { OnOk result (text.new ≡ text.old ++ ascending template.now stages) }
{
    for stage in 0..stages {
        push_filled(text, template, stage)?;
    }
    Ok(())
}

// The same with the first one last.
fn push_descending(text: &mut Text, template: &[u8], stages: u32) -> Result<(), NoMemory>
    requires { stages < 2 ^ 31 }
    ensures { OnOk result (text.new ≡ text.old ++ descending template.now stages) }
{
    let mut stage = stages;
    while stage > 0 {
        stage -= 1;
        push_filled(text, template, stage)?;
    }
    Ok(())
}

// A template with a stage filled in.
fn push_filled(text: &mut Text, template: &[u8], stage: u32) -> Result<(), NoMemory>
    requires { stage < 2 ^ 31 }
    ensures { OnOk result (text.new ≡ text.old ++ filled template.now stage) }
{
    for byte in template {
        push_byte(text, *byte, stage)?;
    }
    Ok(())
}

// What a byte of a template stands for.
fn push_byte(text: &mut Text, byte: u8, stage: u32) -> Result<(), NoMemory>
    requires { stage < 2 ^ 31 }
    ensures { OnOk result (text.new ≡ text.old ++ filled_byte stage byte) }
{
    match byte {
        b'#' => text.extend_from_slice(Buffer::new().format(stage).as_bytes()),
        b'@' => text.extend_from_slice(Buffer::new().format(stage + 1).as_bytes()),
        b'/' => text.push(b'\n'),
        _ => text.push(byte),
    }
}
