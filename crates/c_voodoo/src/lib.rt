// What the tracker, a C program, calls; crates/c_voodoo_c exports it.
#![tactic(auto)]

ghost use Rattle.std.specs.Prelude.{◌≡◌, length};
ghost use Rattle.base_limits.specs.declared.Width.TheVariants.{Bits32};
ghost use Rattle.base_prelude.specs.Lists.{overlay};
ghost use Rattle.res_hosts.specs.Marks.{host_list};
ghost use Rattle.check_source.specs.Check.{lent, check_of};
ghost use Rattle.vm_definitions.specs.Lent.{tables_of};
ghost use Rattle.c_voodoo.specs.Answer.{answer_number, result_words, told, told_of};
ghost use Rattle.c_voodoo.specs.Calls.{answered, start_call, step_call, run_call, resume_call};

use base_limits::{Machine, Refusal, Width};
use c_words::RecordWord;
use check_source::Counts;

// Writes an answer in six words, and gives its number.
fn put_answer(x: Result<Counts, Refusal>, out: &mut [u32]) -> u32
    ensures { (result ≡ answer_number x) × (out.new ≡ overlay (result_words x) out.old) }
{
    match x {
        Ok(p) => c_words::put_six(out, 0, 0, p.tokens, p.statements, p.labels, p.size),
        Err(r) => c_words::put_six(
            out,
            r.number,
            (r.place as u64 % Machine::WORD_VALUES) as u32,
            0,
            0,
            0,
            0,
        ),
    }
}

// Checks a source of 32-bit words against the host's list; include/voodoo.h says how it is called from C.
pub fn voodoo_check(
    source: &[u8],
    hosts: &[u32],
    host_names: &[u8],
    tokens: &mut [u32],
    statements: &mut [u32],
    labels: &mut [u32],
    names: &mut [u8],
    bytes: &mut [u8],
    res: &mut [u32],
) -> u32
    ensures { told result tokens.new statements.new labels.new names.new bytes.new res.new ≡ told_of (check_of Bits32 (host_list hosts.now host_names.now) source.now (lent (length tokens.old) (length statements.old) (length labels.old) (length names.old) (length bytes.old))) res.old }
{
    let x = check_source::check(
        Width::Bits32,
        source,
        hosts,
        host_names,
        tokens,
        statements,
        labels,
        names,
        bytes,
    );
    put_answer(x, res)
}

// Starts the exported function of that name; include/voodoo.h says how it is called from C.
pub fn voodoo_start(
    statements: &[u32],
    count: u32,
    labels: &[u32],
    label_count: u32,
    names: &[u8],
    data_length: u32,
    bytes: &[u8],
    name: &[u8],
    arguments: &[u32],
    record: &mut [u32],
    stack: &mut [u32],
    memory: &mut [u8],
    res: &mut [u32],
) -> u32
    ensures { answered result «record».new stack.new memory.new res.new ≡ start_call «record».old stack.old memory.old res.old (tables_of statements.now count labels.now label_count names.now data_length) bytes.now name.now arguments.now }
{
    if record.len() < RecordWord::COUNT {
        return c_words::reply_refusal(35, res);
    }
    let o = vm_start::start(
        statements,
        count,
        labels,
        label_count,
        names,
        data_length,
        bytes,
        name,
        arguments,
        Machine::fresh(0, 0, 0),
        stack,
        memory,
    );
    c_words::reply_opening(o, record, res)
}

// One step of the lent record; include/voodoo.h says how it is called from C.
pub fn voodoo_step(
    statements: &[u32],
    count: u32,
    labels: &[u32],
    label_count: u32,
    names: &[u8],
    data_length: u32,
    record: &mut [u32],
    stack: &mut [u32],
    memory: &mut [u8],
    res: &mut [u32],
) -> u32
    ensures { answered result «record».new stack.new memory.new res.new ≡ step_call «record».old stack.old memory.old res.old (tables_of statements.now count labels.now label_count names.now data_length) }
{
    let x = c_words::load_record(record);
    match x {
        Some(r) => {
            let stepped = vm_run::step(
                statements,
                count,
                labels,
                label_count,
                names,
                data_length,
                r,
                stack,
                memory,
            );
            c_words::reply_outcome(stepped, record, res)
        }
        None => c_words::reply_refusal(35, res),
    }
}

// Steps of the lent record within a budget; include/voodoo.h says how it is called from C.
pub fn voodoo_run(
    statements: &[u32],
    count: u32,
    labels: &[u32],
    label_count: u32,
    names: &[u8],
    data_length: u32,
    budget: u64,
    record: &mut [u32],
    stack: &mut [u32],
    memory: &mut [u8],
    res: &mut [u32],
) -> u32
    ensures { answered result «record».new stack.new memory.new res.new ≡ run_call «record».old stack.old memory.old res.old (tables_of statements.now count labels.now label_count names.now data_length) budget }
{
    let x = c_words::load_record(record);
    match x {
        Some(r) => {
            let ran = vm_run::run(
                statements,
                count,
                labels,
                label_count,
                names,
                data_length,
                budget,
                r,
                stack,
                memory,
            );
            c_words::reply_outcome(ran, record, res)
        }
        None => c_words::reply_refusal(c_words::unfit_number(budget), res),
    }
}

// Going on with a paused record, the word handed in as the result of its call; include/voodoo.h says how it is called from C.
pub fn voodoo_resume(
    statements: &[u32],
    count: u32,
    labels: &[u32],
    label_count: u32,
    names: &[u8],
    data_length: u32,
    word: u32,
    record: &mut [u32],
    stack: &mut [u32],
    memory: &mut [u8],
    res: &mut [u32],
) -> u32
    ensures { answered result «record».new stack.new memory.new res.new ≡ resume_call «record».old stack.old memory.old res.old (tables_of statements.now count labels.now label_count names.now data_length) word }
{
    let x = c_words::load_record(record);
    match x {
        Some(r) => {
            let resumed = vm_resume::resume(
                statements,
                count,
                labels,
                label_count,
                names,
                data_length,
                word,
                r,
                stack,
                memory,
            );
            c_words::reply_resumed(resumed, record, res)
        }
        None => c_words::reply_refusal(37, res),
    }
}
