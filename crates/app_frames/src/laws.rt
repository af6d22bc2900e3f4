//! Laws of frames, each the contract of a function that does nothing.

ghost use Rattle.std.specs.Prelude.{◌≡◌, ℕ, ◌<◌, ◌≤◌, ◌↔◌, List, ◌++◌, length, take, Ok, Err, Some, None};
ghost use Rattle.of_types.specs.Fields.{IsBytes};
ghost use Rattle.app_frames.specs.declared.fault.FrameFault.{FrameFault};
ghost use Rattle.app_frames.specs.declared.frame.AppFrame.{AppFrame};
ghost use Rattle.app_frames.specs.declared.frame.HostFrame.{HostFrame};
ghost use Rattle.app_frames.specs.Spelling.{app_bytes, host_bytes};
ghost use Rattle.app_frames.specs.Frames.{app_reading, IsAppPartial, IsAppFrame, IsAppAtFront, host_reading, IsHostPartial, IsHostFrame, IsHostAtFront};

/// States the laws of the frames of applications.
pub fn laws_of_app_frames()
    // What is written is read again, whatever follows; and frames in a row are told apart in one way.
    ensures again { (frame : AppFrame) (more : List ℕ) → IsAppFrame frame
        → app_reading (app_bytes frame ++ more) ≡ Ok (Some (frame, length (app_bytes frame))) }
    ensures one { (frame other : AppFrame) (more rest : List ℕ) → IsAppFrame frame → IsAppFrame other
        → app_bytes frame ++ more ≡ app_bytes other ++ rest → (frame ≡ other) × (more ≡ rest) }

    // What is read is in the grammar, and is written as the bytes that were read.
    ensures spelled { (bytes : List ℕ) (frame : AppFrame) (size : ℕ) → IsBytes bytes
        → app_reading bytes ≡ Ok (Some (frame, size)) → IsAppAtFront frame size bytes }
    ensures size { (bytes : List ℕ) (frame : AppFrame) (size : ℕ) → app_reading bytes ≡ Ok (Some (frame, size))
        → (5 ≤ size) × (size ≤ 1048583) × (size ≤ length bytes) }

    // A whole frame needs no more than its own bytes; it and a fault stay, whatever follows.
    ensures alone { (bytes : List ℕ) (frame : AppFrame) (size : ℕ) → app_reading bytes ≡ Ok (Some (frame, size))
        → app_reading (take size bytes) ≡ Ok (Some (frame, size)) }
    ensures whole_stays { (bytes more : List ℕ) (frame : AppFrame) (size : ℕ)
        → app_reading bytes ≡ Ok (Some (frame, size)) → app_reading (bytes ++ more) ≡ Ok (Some (frame, size)) }
    ensures fault_stays { (bytes more : List ℕ) (fault : FrameFault)
        → app_reading bytes ≡ Err fault → app_reading (bytes ++ more) ≡ Err fault }

    // Before that a frame is yet to come: it is no longer than 1,048,582 bytes by then.
    ensures none { (bytes : List ℕ) → (app_reading bytes ≡ Ok None) ↔ IsAppPartial bytes }
    ensures before { (bytes more : List ℕ) (frame : AppFrame) (size : ℕ)
        → app_reading (bytes ++ more) ≡ Ok (Some (frame, size)) → length bytes < size → app_reading bytes ≡ Ok None }
    ensures ends { (bytes : List ℕ) → app_reading bytes ≡ Ok None → length bytes < 1048583 }
{}

/// States the laws of the frames of the host.
pub fn laws_of_host_frames()
    // What is written is read again, whatever follows; and frames in a row are told apart in one way.
    ensures again { (frame : HostFrame) (more : List ℕ) → IsHostFrame frame
        → host_reading (host_bytes frame ++ more) ≡ Ok (Some (frame, length (host_bytes frame))) }
    ensures one { (frame other : HostFrame) (more rest : List ℕ) → IsHostFrame frame → IsHostFrame other
        → host_bytes frame ++ more ≡ host_bytes other ++ rest → (frame ≡ other) × (more ≡ rest) }

    // What is read is in the grammar, and is written as the bytes that were read.
    ensures spelled { (bytes : List ℕ) (frame : HostFrame) (size : ℕ) → IsBytes bytes
        → host_reading bytes ≡ Ok (Some (frame, size)) → IsHostAtFront frame size bytes }
    ensures size { (bytes : List ℕ) (frame : HostFrame) (size : ℕ) → host_reading bytes ≡ Ok (Some (frame, size))
        → (5 ≤ size) × (size ≤ length bytes) }

    // A whole frame needs no more than its own bytes; it and a fault stay, whatever follows. No length is too long.
    ensures alone { (bytes : List ℕ) (frame : HostFrame) (size : ℕ) → host_reading bytes ≡ Ok (Some (frame, size))
        → host_reading (take size bytes) ≡ Ok (Some (frame, size)) }
    ensures whole_stays { (bytes more : List ℕ) (frame : HostFrame) (size : ℕ)
        → host_reading bytes ≡ Ok (Some (frame, size)) → host_reading (bytes ++ more) ≡ Ok (Some (frame, size)) }
    ensures fault_stays { (bytes more : List ℕ) (fault : FrameFault)
        → host_reading bytes ≡ Err fault → host_reading (bytes ++ more) ≡ Err fault }
    ensures never_too_long { (bytes : List ℕ) → ¬ (host_reading bytes ≡ Err FrameFault.TooLong) }

    // Before that a frame is yet to come.
    ensures none { (bytes : List ℕ) → (host_reading bytes ≡ Ok None) ↔ IsHostPartial bytes }
    ensures before { (bytes more : List ℕ) (frame : HostFrame) (size : ℕ)
        → host_reading (bytes ++ more) ≡ Ok (Some (frame, size)) → length bytes < size → host_reading bytes ≡ Ok None }
{}
