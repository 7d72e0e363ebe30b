// Scripts with lines in error, which end the program with status 1, from text to text.
#![tactic(auto)]

#[cfg(test)]
mod tests {
    use reading::known::Known;
    use script::planner::Planner;
    use script::runner::run;
    use script::tally::Tally;
    use std::fmt::Write;
    use std::process::Abort;
    use std::test::Fail;

    // What a script writes, and whether it had no line in error.
    fn writes(
        rt: &(impl Abort + AllocGlobal),
        known: Known,
        script: &str,
        text: &str,
        clean: bool,
    ) -> Result<(), Fail> {
        let ran = run(rt.alloc(), known, script)?;
        assert_eq!(rt; ran.text.as_str(), text);
        assert_eq!(rt; ran.clean, clean);
        Ok(())
    }

    // What a script of planning commands writes, whichever commands are known.
    fn plans(
        rt: &(impl Abort + AllocGlobal),
        script: &str,
        text: &str,
        clean: bool,
    ) -> Result<(), Fail> {
        writes(rt, Known::Planning, script, text, clean)?;
        writes(rt, Known::All, script, text, clean)
    }

    #[test]
    fn each_error_names_its_line(rt: HostRuntime) -> Result<(), Fail> {
        plans(
            &rt,
            "# comment\n\nassoc 4 even\nassociation 4\nassociation four even\nassociation 4 left\nassociation 4 even now\n",
            "error line 3: there is no command assoc\n\
             error line 4: the side is missing\n\
             error line 5: the size is not a decimal number: four\n\
             error line 6: the side is not even or odd: left\n\
             error line 7: one word too many: now\n\
             total associations 0 codes 0 answered 0 refused 0 errors 5\n",
            false,
        )
    }

    #[test]
    fn the_script_goes_on_after_an_error(rt: HostRuntime) -> Result<(), Fail> {
        plans(
            &rt,
            "association 3 odd\n # no comment\nhunt up 1\nhunt straight\nhunt straight 1",
            "association 1 places 1-3\n\
             error line 2: there is no command #\n\
             error line 3: the order is not straight or own-half-first: up\n\
             error line 4: the association is missing\n\
             hunt 1: 2 1 0\n\
             total associations 1 codes 3 answered 2 refused 0 errors 3\n",
            false,
        )
    }

    #[test]
    fn numbers_of_any_length_are_refused_and_signs_are_errors(rt: HostRuntime) -> Result<(), Fail> {
        plans(
            &rt,
            "association 18446744073709551617 even\nhunt straight 65537\nassociation +4 even\nassociation 004 even",
            "refused 10\n\
             refused 3\n\
             error line 3: the size is not a decimal number: +4\n\
             association 1 places 1-4\n\
             total associations 1 codes 4 answered 1 refused 2 errors 1\n",
            false,
        )
    }

    #[test]
    fn refusals_are_no_errors(rt: HostRuntime) -> Result<(), Fail> {
        plans(
            &rt,
            "association 0 even\nhunt own-half-first 1\r\n\n",
            "refused 10\nrefused 3\ntotal associations 0 codes 0 answered 0 refused 2 errors 0\n",
            true,
        )
    }

    #[test]
    fn commands_out_of_turn_alter_nothing(rt: HostRuntime) -> Result<(), Fail> {
        writes(
            &rt,
            Known::All,
            "show 1\nlists 1 1\nassociation 2 even\nopen straight re-use 1\nassociation 2 even\nopen straight re-use 1\nphase 1\n",
            "error line 1: the node is not open yet\n\
             error line 2: the node is not open yet\n\
             association 1 places 1-2\n\
             open 1 2\n\
             error line 5: the node is open already\n\
             error line 6: the node is open already\n\
             phase none\n\
             total associations 1 codes 2 answered 3 refused 0 errors 4\n",
            false,
        )
    }

    #[test]
    fn what_poke_cannot_read(rt: HostRuntime) -> Result<(), Fail> {
        writes(
            &rt,
            Known::All,
            "association 1 odd\nopen own-half-first per-call 9\n\
             poke 1 10 0 no no 0 0 - 0 0 off off\n\
             poke 1 256 0 no no 0 0 - 0 0 off off\n\
             poke 1 Idle 65536 no no 0 0 - 0 0 off off\n\
             poke 1 Idle 0 No no 0 0 - 0 0 off off\n\
             poke 1 Idle 0 no no 0 0 0123456789abcdef0 0 0 off off\n\
             poke 1 Idle 0 no no 0 0 A 0 0 off off\n\
             poke 1 Idle 0 no no 0 0 /1 0 0 off off\n\
             poke 1 Idle 0 no no 0 0 - 0 0 never off\n\
             poke 1 Idle 0 no no 0 0 - 0 0 off\n\
             poke 2 11 0 no no 0 0 -/255 0 0 off 4294967295\n",
            "association 1 places 1-1\n\
             open 1 1\n\
             error line 3: the state is not the name of a state or a number from 11 to 255: 10\n\
             error line 4: the state is not the name of a state or a number from 11 to 255: 256\n\
             error line 5: the partner is not a number up to 65535: 65536\n\
             error line 6: the own block is not yes or no: No\n\
             error line 7: the string of digits is not - or up to 16 of 0-9 a-f: 0123456789abcdef0\n\
             error line 8: the string of digits is not - or up to 16 of 0-9 a-f: A\n\
             error line 9: the string of digits is not - or up to 16 of 0-9 a-f: /1\n\
             error line 10: the short due time is not off or a number up to 4294967295: never\n\
             error line 11: the long due time is missing\n\
             refused 4\n\
             total associations 1 codes 1 answered 2 refused 1 errors 9\n",
            false,
        )
    }

    #[test]
    fn a_script_that_plans_knows_no_other_command(rt: HostRuntime) -> Result<(), Fail> {
        writes(
            &rt,
            Known::Planning,
            "association 2 even\nopen straight re-use 1\nshow 1\n",
            "association 1 places 1-2\n\
             error line 2: there is no command open\n\
             error line 3: there is no command show\n\
             total associations 1 codes 2 answered 1 refused 0 errors 2\n",
            false,
        )
    }

    #[test]
    fn a_planner_knows_no_other_command(rt: HostRuntime) -> Result<(), Fail> {
        let mut planner = Planner::new();
        let mut text = String::new(rt.alloc());
        let _ = planner.line(b"association 2 even", &mut text)?;
        let _ = planner.line(b"open straight re-use 1", &mut text)?;
        let tally = planner.tally();
        writeln!(text, "{tally}")?;
        assert_eq!(rt;
            text.as_str(),
            "association 1 places 1-2\n\
             error line 2: there is no command open\n\
             total associations 1 codes 2 answered 1 refused 0 errors 1\n"
        );
        Ok(())
    }

    #[test]
    fn the_longest_total(rt: HostRuntime) -> Result<(), Fail> {
        let tally = Tally {
            associations: 65535,
            codes: 65535,
            answered: u64::MAX,
            refused: u64::MAX,
            errors: u64::MAX,
        };
        let mut text = String::new(rt.alloc());
        writeln!(text, "{tally}")?;
        assert_eq!(rt; text.as_str().len(), 124);
        Ok(())
    }
}
