// What holds of all that is recorded. Nothing runs here: the contracts are the laws.
ghost use Rattle.std.specs.Prelude.{◌≡◌, ◌≤◌, ℕ, List, length, true, Ok};
ghost use Rattle.qc_base.specs.Spelling.{is_call, is_recording};
ghost use Rattle.qc_base.specs.declared.recording.Call.{Call};
ghost use Rattle.qc_base.specs.declared.recording.Recording.{Recording};
ghost use Rattle.qc_protocol.specs.declared.order.RawCall.{RawCall};
ghost use Rattle.qc_catalogue.specs.Orderly.{is_orderly};
ghost use Rattle.qc_catalogue.specs.declared.catalogue.Catalogue.{Catalogue};
ghost use Rattle.qc_catalogue.specs.declared.catalogue.Method.{Method};
ghost use Rattle.qc_recorder.specs.Fits.{call_fits, call_taken};
ghost use Rattle.qc_recorder.specs.Recording.{begun, called, recorded, raw_call, IsHeld};

/// What is recorded under a catalogue fits it, and its spelling has at most 16,384 bytes: so it is when a recorder is
/// begun, after each call more, and after a whole list of calls. With a call it is a recording that can be sent.
pub fn what_is_recorded_fits()
    ensures begun { (c : Catalogue) (app component : List ℕ) (r : Recording) → is_orderly c ≡ true → begun c app component ≡ Ok r → IsHeld c r }
    ensures called { (c : Catalogue) (r more : Recording) (call : RawCall) → is_orderly c ≡ true → IsHeld c r → called c r call ≡ Ok more → IsHeld c more }
    ensures recorded { (c : Catalogue) (app component : List ℕ) (calls : List RawCall) (r : Recording) → is_orderly c ≡ true → recorded c app component calls ≡ Ok r → IsHeld c r }
    ensures sent { (c : Catalogue) (r : Recording) → IsHeld c r → 1 ≤ length r.calls → is_recording r ≡ true }
{}

/// A recorded call fits exactly where no rule on methods and arguments refuses it when it is sent anew, and it is then
/// recorded as it was.
pub fn what_fits_is_taken_again()
    ensures taken { (methods : List Method) (number : ℕ) (call : Call) → is_call call ≡ true → call_fits methods call ≡ true → call_taken methods number (raw_call call) ≡ Ok call }
    ensures fits { (methods : List Method) (number : ℕ) (call taken : Call) → call_taken methods number (raw_call call) ≡ Ok taken → call_fits methods call ≡ true }
{}
