//! Verilog: names.

ghost use Rattle.std.specs.Prelude.{◌≡◌, IfOk};
ghost use Rattle.verilog_text.specs.Names as names;
ghost use Rattle.verilog_text.specs.Translations.{names_of};
ghost use Rattle.verilog_text.specs.inner.Making as making;

use crate::words::has_word;
use circuit_eval::{Circuit, InputWire, OutputWire, StateWire};
use kw_bits::{NoMemory, Text};
use std::alloc::Global;

// The reserved words, each after a blank but the first.
fn reserved_text() -> &'static [u8]
    ensures { result.now ≡ names.reserved_text }
{
    b"accept_on alias always always_comb always_ff always_latch and assert assign assume automatic before \
      begin bind bins binsof bit bool break buf bufif0 bufif1 byte case casex casez cell chandle checker class \
      clocking cmos config const constraint context continue cover covergroup coverpoint cross deassign \
      default defparam design disable dist do edge else end endcase endchecker endclass endclocking endconfig \
      endfunction endgenerate endgroup endinterface endmodule endpackage endprimitive endprogram endproperty \
      endsequence endspecify endtable endtask enum event eventually expect export extends extern final \
      first_match for force foreach forever fork forkjoin function generate genvar global highz0 highz1 if iff \
      ifnone ignore_bins illegal_bins implements implies import incdir include initial inout input inside \
      instance int integer interconnect interface intersect join join_any join_none large let liblist library \
      local localparam logic longint macromodule mailbox matches medium modport module nand negedge nettype \
      new nexttime nmos nor noshowcancelled not notif0 notif1 null or output package packed parameter pmos \
      posedge primitive priority process program property protected pull0 pull1 pulldown pullup \
      pulsestyle_ondetect pulsestyle_onevent pure rand randc randcase randsequence rcmos real realtime ref reg \
      reject_on release repeat restrict return rnmos rpmos rtran rtranif0 rtranif1 s_always s_eventually \
      s_nexttime s_until s_until_with scalared semaphore sequence shortint shortreal showcancelled signed \
      small soft solve specify specparam static string strong strong0 strong1 struct super supply0 supply1 \
      sync_accept_on sync_reject_on table tagged task this throughout time timeprecision timeunit tran tranif0 \
      tranif1 tri tri0 tri1 triand trior trireg type typedef union unique unique0 unsigned until until_with \
      untyped use uwire var vectored virtual void wait wait_order wand weak weak0 weak1 while wildcard wire \
      with within wone wor wreal xnor xor"
}

fn is_reserved(name: &[u8]) -> bool
    ensures { result ≡ names.is_reserved name.now }
{
    has_word(reserved_text(), name)
}

// A name with a `$` after it where it is to have one.
fn marked(alloc: Global, is_marked: bool, name: &[u8]) -> Result<Text, NoMemory>
    ensures { IfOk result (λ text. text ≡ names.marked is_marked name.now) }
{
    let mut text = Text::from_slice(alloc, name)?;
    if is_marked {
        text.push(b'$')?;
    }
    Ok(text)
}

/// How a name of a circuit is written.
pub(crate) fn written(alloc: Global, name: &[u8]) -> Result<Text, NoMemory>
    ensures { IfOk result (λ text. text ≡ names.written name.now) }
{
    marked(alloc, is_reserved(name), name)
}

// Whether an input, an output or a state has a name.
fn has_name(inputs: &[InputWire], outputs: &[OutputWire], states: &[StateWire], name: &[u8]) -> bool
    ensures { result ≡ making.has_name inputs.now outputs.now states.now name.now }
{
    if is_input(inputs, name) {
        return true;
    }
    if is_output(outputs, name) {
        return true;
    }
    is_state(states, name)
}

fn is_input(inputs: &[InputWire], name: &[u8]) -> bool
    ensures { result ≡ making.is_input inputs.now name.now }
{
    inputs.iter().any(|wire| wire.name.as_slice() == name)
}

fn is_output(outputs: &[OutputWire], name: &[u8]) -> bool
    ensures { result ≡ making.is_output outputs.now name.now }
{
    outputs.iter().any(|wire| wire.name.as_slice() == name)
}

fn is_state(states: &[StateWire], name: &[u8]) -> bool
    ensures { result ≡ making.is_state states.now name.now }
{
    states.iter().any(|wire| wire.name.as_slice() == name)
}

/// How a name of the module's own is written.
pub(crate) fn own_name(alloc: Global, circuit: &Circuit, name: &[u8]) -> Result<Text, NoMemory>
    ensures { IfOk result (λ text. text ≡ names.own_name (names_of circuit.now) name.now) }
{
    let inputs = circuit.inputs.as_slice();
    let outputs = circuit.outputs.as_slice();
    let states = circuit.states.as_slice();
    let is_taken = has_name(inputs, outputs, states, name);
    let text = marked(alloc, is_taken, name)?;
    Ok(text)
}
