//! Concrete small states that meet the step relations, so that none of them is empty.

ghost use Rattle.std.specs.Prelude.{◌≡◌, ◌<◌, ◌∷◌, [], false, true};
ghost use Rattle.engine_model.specs.CommandExamples.{all_drained, emptied, emptied_array, leftover, recounted, scan_count_out, scan_print_fixed, scan_print_out, scanned};
ghost use Rattle.engine_model.specs.Drain.{DoneDrain};
ghost use Rattle.engine_model.specs.LookingAgain.{QuietRun, SparingPass};
ghost use Rattle.engine_model.specs.Scan.{TablesSettled};
ghost use Rattle.engine_model.specs.SmallCommands.{CanDiscard, CanWriteFound, CanWriteFresh};
ghost use Rattle.engine_model.specs.SmallScan.{IsDrained, SmallScan};
ghost use Rattle.engine_model.specs.Tight.{IsSettled, IsTight, WantsPage};
ghost use Rattle.engine_model.specs.Commands.{Gains, PageContent, Renamed};
ghost use Rattle.engine_model.specs.Edits.{ContentEdits, Edits, Grown};
ghost use Rattle.engine_model.specs.Entries.{Apart};
ghost use Rattle.engine_model.specs.Examples.{applied, asked, dropped_release, empty, empty_array, printed, waiting, written, written_array};
ghost use Rattle.engine_model.specs.FlushSession.{count_out, flush_moments, flushed, switch_moments, waits_for_barrier};
ghost use Rattle.engine_model.specs.Invariant.{EngineInvariant, ToldPool, known_at};
ghost use Rattle.engine_model.specs.Known.{Tells};
ghost use Rattle.engine_model.specs.Pair.{equal_pages, folded, pair};
ghost use Rattle.engine_model.specs.AnyDevice.{IsOrdered};
ghost use Rattle.engine_model.specs.Pass.{Pass};
ghost use Rattle.engine_model.specs.PassExamples.{all_gone, late, late_out, stuck, stuck_later};
ghost use Rattle.engine_model.specs.Releases.{Applied};
ghost use Rattle.engine_model.specs.Schedule.{Run};
ghost use Rattle.engine_model.specs.Session.{count_gone, discarded, dropped, mounted, wrote};
ghost use Rattle.engine_model.specs.SmallPass.{SmallPass};
ghost use Rattle.engine_model.specs.SmallRuns.{SmallRun, SmallStep};
ghost use Rattle.engine_model.specs.SmallSession.{content_placed, small_moments};
ghost use Rattle.engine_model.specs.SmallSteps.{touched};
ghost use Rattle.engine_model.specs.VersionSwitch.{SwitchRun, SwitchStart};

/// The edits of a write to a fresh page, of an applied release that takes a print away, and of a fold; so edits in
/// general, and a touched page.
pub fn edits_are_possible()
    ensures written { Tells printed empty (asked true) × Renamed printed (asked true) 5 empty written 0 0 1
        × PageContent printed (asked true) empty written 0 1 (7 ∷ []) × Gains empty_array written_array 0 (7 ∷ []) }
    ensures applied { Tells printed waiting (asked false)
        × Applied printed (asked false) waiting applied dropped_release [] [] }
    ensures folded { Renamed pair (asked false) 5 equal_pages folded 1 2 1
        × PageContent pair (asked false) equal_pages folded 1 1 (equal_pages.cached (pair.data_page 2)) }
    ensures general { Edits printed 5 empty written
        × ContentEdits printed true empty_array written_array empty written }
    ensures grown { Grown printed 5 empty (touched 1 empty) × ToldPool printed mounted content_placed }
{}

/// A session in small: a block is written and discarded, its release is applied and its content dropped, no page
/// was written, and one is free. The last two steps are a pass.
pub fn a_session_is_possible()
    ensures start { Apart printed × EngineInvariant printed 5 true mounted }
    ensures run { Run printed 5 mounted (wrote ∷ (discarded ∷ (count_gone ∷ (dropped ∷ [])))) }
    ensures pass { Pass printed discarded [] discarded.world.queue dropped }
    ensures free { (known_at printed dropped).free 1 ≡ true }
{}

/// The same by small steps, and a Barrier edge from a page that is hung.
pub fn small_steps_are_possible()
    ensures run { SmallRun printed 5 mounted small_moments }
    ensures barrier_edge { SmallStep printed 5 count_out waits_for_barrier }
{}

/// What was written goes out, with one write that fails and is taken; then each block has its last content, a
/// correction finds nothing, and the block is written again with what it holds.
pub fn a_flush_is_possible()
    ensures run { Run printed 5 wrote flush_moments }
{}

/// After the flush the version is changed.
pub fn a_switch_is_possible()
    ensures run { SwitchStart printed 5 true flushed × SwitchRun printed (9 ∷ []) flushed flushed switch_moments }
{}

/// A release of an unborn name and print is applied and its content given up, one takes the last print away under its
/// edge, and one stays.
pub fn passes_are_possible()
    ensures gives_up { EngineInvariant printed 5 true discarded × SmallPass printed discarded [] discarded.world.queue all_gone }
    ensures last_print { IsOrdered printed late.world × SmallPass printed late [] late.world.queue late_out }
    ensures stays { IsOrdered printed stuck.world × SmallPass printed stuck [] stuck.world.queue stuck }
{}

/// A step of a pass may be spared: a release that is blocked stays so over a write of a data page and a barrier, and a
/// pass that passes it over without a look is one.
pub fn a_look_can_be_spared()
    ensures quiet { QuietRun printed 5 dropped_release stuck_later dropped_release stuck }
    ensures spared { SparingPass printed stuck stuck [] stuck.world.queue stuck }
{}

/// A write to a fresh page and one to a page that holds the content already, and a discard of a block that was flushed.
pub fn commands_are_possible()
    ensures fresh { EngineInvariant printed 5 true mounted
        × CanWriteFresh printed 5 mounted 0 0 1 (7 ∷ []) (1 ∷ []) (1 ∷ (7 ∷ [])) (1 ∷ [])
        × Gains mounted.array written_array 0 (7 ∷ []) }
    ensures found { EngineInvariant printed 5 true discarded
        × CanWriteFound printed 5 discarded.world 0 0 1 (7 ∷ []) (2 ∷ []) (1 ∷ []) }
    ensures discard { EngineInvariant printed 5 true flushed × CanDiscard printed flushed.world 0 1 (0 ∷ [])
        × Gains flushed.array emptied_array 0 printed.zero_block }
{}

/// After that discard a drain: the map page goes out, the pass applies the release and takes the last print away, and
/// the second round writes the print page and then the count page.
pub fn a_drain_is_possible()
    ensures drain { EngineInvariant printed 5 true emptied × DoneDrain printed 5 emptied all_drained }
{}

/// A scan over a page that a crash left counted: its print goes, its count is set to no name, and both pages go out.
pub fn a_scan_is_possible()
    ensures scan { EngineInvariant printed 5 true leftover × IsDrained printed leftover.world
        × SmallScan printed 5 1 leftover (recounted ∷ (scan_print_out ∷ (scan_print_fixed ∷ (scan_count_out ∷ (scanned ∷ [])))))
        × TablesSettled printed scanned }
{}

/// A tight state in which nothing waits, and one in which a content wants a fresh page.
pub fn nothing_wasted_is_possible()
    ensures settled { IsTight printed 2 flushed.world × IsSettled printed flushed × (printed.blocks < 5) }
    ensures wanted { IsTight printed 2 mounted.world × WantsPage printed 5 2 mounted.world (7 ∷ []) }
{}
