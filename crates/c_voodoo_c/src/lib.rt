// The exports of the static library: each calls the function of c_voodoo of its name and states its clause again.
#![tactic(auto)]

ghost use Rattle.std.specs.Prelude.{◌≡◌, length};
ghost use Rattle.base_limits.specs.declared.Width.TheVariants.{Bits32};
ghost use Rattle.res_hosts.specs.Marks.{host_list};
ghost use Rattle.check_source.specs.Check.{lent, check_of};
ghost use Rattle.vm_definitions.specs.Lent.{tables_of};
ghost use Rattle.c_voodoo.specs.Answer.{told, told_of};
ghost use Rattle.c_voodoo.specs.Calls.{answered, start_call, step_call, run_call, resume_call};

// Checks a source of 32-bit words against the host's list; include/voodoo.h says how it is called from C.
#[unsafe(no_mangle)]
pub extern "C" fn voodoo_check(
    source: &[u8],
    hosts: &[u32],
    host_names: &[u8],
    tokens: &mut [u32],
    statements: &mut [u32],
    labels: &mut [u32],
    names: &mut [u8],
    bytes: &mut [u8],
    res: &mut [u32],
) -> u32
    ensures { told result tokens.new statements.new labels.new names.new bytes.new res.new ≡ told_of (check_of Bits32 (host_list hosts.now host_names.now) source.now (lent (length tokens.old) (length statements.old) (length labels.old) (length names.old) (length bytes.old))) res.old }
{
    c_voodoo::voodoo_check(
        source, hosts, host_names, tokens, statements, labels, names, bytes, res,
    )
}

// Starts the exported function of that name; include/voodoo.h says how it is called from C.
#[unsafe(no_mangle)]
pub extern "C" fn voodoo_start(
    statements: &[u32],
    count: u32,
    labels: &[u32],
    label_count: u32,
    names: &[u8],
    data_length: u32,
    bytes: &[u8],
    name: &[u8],
    arguments: &[u32],
    record: &mut [u32],
    stack: &mut [u32],
    memory: &mut [u8],
    res: &mut [u32],
) -> u32
    ensures { answered result «record».new stack.new memory.new res.new ≡ start_call «record».old stack.old memory.old res.old (tables_of statements.now count labels.now label_count names.now data_length) bytes.now name.now arguments.now }
{
    c_voodoo::voodoo_start(
        statements,
        count,
        labels,
        label_count,
        names,
        data_length,
        bytes,
        name,
        arguments,
        record,
        stack,
        memory,
        res,
    )
}

// One step of the lent record; include/voodoo.h says how it is called from C.
#[unsafe(no_mangle)]
pub extern "C" fn voodoo_step(
    statements: &[u32],
    count: u32,
    labels: &[u32],
    label_count: u32,
    names: &[u8],
    data_length: u32,
    record: &mut [u32],
    stack: &mut [u32],
    memory: &mut [u8],
    res: &mut [u32],
) -> u32
    ensures { answered result «record».new stack.new memory.new res.new ≡ step_call «record».old stack.old memory.old res.old (tables_of statements.now count labels.now label_count names.now data_length) }
{
    c_voodoo::voodoo_step(
        statements,
        count,
        labels,
        label_count,
        names,
        data_length,
        record,
        stack,
        memory,
        res,
    )
}

// Steps of the lent record within a budget; include/voodoo.h says how it is called from C.
#[unsafe(no_mangle)]
pub extern "C" fn voodoo_run(
    statements: &[u32],
    count: u32,
    labels: &[u32],
    label_count: u32,
    names: &[u8],
    data_length: u32,
    budget: u64,
    record: &mut [u32],
    stack: &mut [u32],
    memory: &mut [u8],
    res: &mut [u32],
) -> u32
    ensures { answered result «record».new stack.new memory.new res.new ≡ run_call «record».old stack.old memory.old res.old (tables_of statements.now count labels.now label_count names.now data_length) budget }
{
    c_voodoo::voodoo_run(
        statements,
        count,
        labels,
        label_count,
        names,
        data_length,
        budget,
        record,
        stack,
        memory,
        res,
    )
}

// Going on with a paused record, the word handed in as the result of its call; include/voodoo.h says how it is called from C.
#[unsafe(no_mangle)]
pub extern "C" fn voodoo_resume(
    statements: &[u32],
    count: u32,
    labels: &[u32],
    label_count: u32,
    names: &[u8],
    data_length: u32,
    word: u32,
    record: &mut [u32],
    stack: &mut [u32],
    memory: &mut [u8],
    res: &mut [u32],
) -> u32
    ensures { answered result «record».new stack.new memory.new res.new ≡ resume_call «record».old stack.old memory.old res.old (tables_of statements.now count labels.now label_count names.now data_length) word }
{
    c_voodoo::voodoo_resume(
        statements,
        count,
        labels,
        label_count,
        names,
        data_length,
        word,
        record,
        stack,
        memory,
        res,
    )
}
