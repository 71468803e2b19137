// Capture for a host.
ghost use Rattle.gentropi.specs.After.{CaptureExport};

use index::ModuleIdx;
use records::Records;

#[unsafe(no_mangle)]
pub extern "C" fn gentropi_capture(
    n: usize,
    d: usize,
    recursive: bool,
    from: u32,
    flags: &[u8],
    first: &[u32],
    dependency: &[u32],
    next: &[u32],
    marks: &mut [u8],
    scratch: &mut [u32],
) -> u32
    ensures { CaptureExport (record {
      n = n;
      d = d;
      recursive = recursive;
      from = from;
      flags = flags.now;
      first = first.now;
      dependency = dependency.now;
      next = next.now;
    }) result (record {
      marks = marks.old;
      scratch = scratch.old;
    }) (record {
      marks = marks.new;
      scratch = scratch.new;
    }) }
{
    let records = Records {
        first,
        dependency,
        next,
    };
    let answer = capture::add_module_and_dependencies_to_group_recursively(
        n,
        d,
        recursive,
        ModuleIdx(from),
        flags,
        &records,
        marks,
        scratch,
    );
    match answer {
        Err(refusal) => refusal.number(),
        Ok(()) => 0,
    }
}
