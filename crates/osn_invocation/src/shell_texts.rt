//! The text around the rows of the grammar for each shell: a function before them takes a row, and
//! the code after them completes a word by the rows.

/// The text before the rows in GNU Bash.
pub(crate) const BASH_HEAD: &str = r#"# Made by `oldstyle completions bash`.

# Takes a row of the grammar: a command; or a command, then the word argument or an option, and what
# its value may be, if it has one: FILE, CODE, TEXT, or one of the words that follow.
_oldstyle_row() {
    if [ $# = 1 ]; then
        commands+=("$1")
    elif [ "$1" != "$command" ]; then
        return
    elif [ "$2" = argument ]; then
        arguments+=("${*:3}")
    else
        options[$2]=${*:3}
    fi
}

# Prints the codes of the territories of a journal, or of the default one.
_oldstyle_codes() {
    command oldstyle territory "$@" 2> /dev/null < /dev/null | sed -n 's/.* (\(.*\))$/\1/p'
}

_oldstyle() {
    local -a commands=() arguments=() words=() plain=() journal=()
    local -A options=([--help]="")
    local command=oldstyle wanted="" option="" at word before
    for before in "${COMP_WORDS[@]:1:COMP_CWORD-1}"; do
        [ "$before" = = ] || words+=("$before")
    done
    word=${COMP_WORDS[COMP_CWORD]#=}
    [ ${#words[@]} = 0 ] || command=${words[0]}
"#;

/// The text after the rows in GNU Bash.
pub(crate) const BASH_END: &str = r#"    [ "$command" != oldstyle ] || options[--version]=""
    case $command in oldstyle | help) arguments=("${commands[*]} help") ;; esac
    for before in "${words[@]:1}"; do
        if [ -n "$wanted" ]; then
            [ "$option" != --journal ] || journal=("$before")
            wanted=""
        elif [[ $before == *[\<\>]* ]]; then
            wanted=FILE option=""
        elif [[ $before == --* ]]; then
            wanted=${options[$before]-} option=$before
        else
            plain+=("$before")
        fi
    done
    at=${#plain[@]}
    # The journal is left out if an option names it, or if the first argument is not a file.
    if [ "${options[--journal]-}${arguments[0]-}" = FILEFILE ]; then
        if [ ${#journal[@]} = 0 ] && [ -e "${plain[0]-}" ]; then
            journal=("${plain[0]}")
        elif [ "${#journal[@]}$at" != 00 ] && [ "${arguments[1]-}" != FILE ]; then
            at=$((at + 1))
        fi
    fi
    if [ -z "$wanted" ]; then
        wanted=${arguments[at]-}
        [ "$at${arguments[1]-}" != 0CODE ] || wanted="FILE CODE"
        [[ $word != -* ]] || wanted=${!options[*]}
    fi
    COMPREPLY=()
    case $wanted in
        FILE*)
            compopt -o filenames 2> /dev/null
            mapfile -t COMPREPLY < <(compgen -f -- "$word")
            ;;&
        *CODE)
            mapfile -t -O ${#COMPREPLY[@]} COMPREPLY \
                < <(compgen -W "$(_oldstyle_codes "${journal[@]}")" -- "$word")
            ;;
        FILE | TEXT) ;;
        *) mapfile -t COMPREPLY < <(compgen -W "$wanted" -- "$word") ;;
    esac
}

complete -F _oldstyle oldstyle
"#;

/// The text before the rows in the Z shell.
pub(crate) const ZSH_HEAD: &str = r#"#compdef oldstyle
# Made by `oldstyle completions zsh`.

# Takes a row of the grammar: a command; or a command, then the word argument or an option, and what
# its value may be, if it has one: FILE, CODE, TEXT, or one of the words that follow.
_oldstyle_row() {
    local values="${argv[3,-1]}"
    case $values in
        FILE) values=_files ;;
        CODE) values=_oldstyle_codes ;;
        TEXT) values=' ' ;;
        *) values="($values)" ;;
    esac
    if (( $# == 1 )); then
        commands+=($1)
    elif [[ $1 != $command ]]; then
        return
    elif [[ $2 == argument ]]; then
        wanted+=(":value:$values")
    elif (( $# == 2 )); then
        wanted+=($2)
    else
        wanted+=("$2=:value:$values")
    fi
}

# Adds the codes of the territories of a journal, or of the default one.
_oldstyle_codes() {
    local -a codes
    codes=(${(f)"$(command oldstyle territory $journal 2> /dev/null < /dev/null |
        sed -n 's/.* (\(.*\))$/\1/p')"})
    compadd "$@" -a codes
}

_oldstyle() {
    local command=oldstyle word option
    local -a commands wanted plain journal
    wanted=(--help)
    (( CURRENT == 2 )) || command=$words[2]
"#;

/// The text after the rows in the Z shell.
pub(crate) const ZSH_END: &str = r#"    case $command in
        oldstyle) wanted+=(--version ":command:($commands help)") ;;
        help) wanted+=(":command:($commands help)") ;;
    esac
    if [[ $command != oldstyle ]]; then
        shift words
        (( CURRENT-- ))
    fi
    for word in ${(Q)words[2,CURRENT-1]}; do
        if [[ -n $option ]]; then
            [[ $option != --journal ]] || journal=($word)
            option=
        elif [[ $word == --journal=* ]]; then
            journal=(${word#*=})
        elif [[ $word != --* ]]; then
            plain+=($word)
        elif (( ${wanted[(I)$word=*]} )); then
            option=$word
        fi
    done
    # The journal is left out if an option names it, or if the first argument is not a file.
    if (( ${wanted[(I)--journal=*]} )) && [[ $wanted[2] == :value:_files ]]; then
        if (( ! $#journal )) && [[ -e $plain[1] ]]; then
            journal=($plain[1])
        elif [[ $wanted[3] != :value:_files ]] && (( $#journal + $#plain )); then
            wanted[2]=()
        elif [[ $wanted[3] == :value:_oldstyle_codes ]]; then
            wanted[2]=':value:{_files; _oldstyle_codes}'
        fi
    fi
    _arguments : $wanted
}

if [[ $funcstack[1] == _oldstyle ]]; then
    _oldstyle "$@"
else
    compdef _oldstyle oldstyle
fi
"#;

/// The text before the rows in fish.
pub(crate) const FISH_HEAD: &str = r#"# Made by `oldstyle completions fish`.

# Whether a command was typed; before any, it is oldstyle.
function _oldstyle_has -a command
    set -l words (commandline -opc) oldstyle
    test "$words[2]" = $command
end

# Reads what was typed after a command: how many arguments, with the journal if it is left out, that
# journal, and the option whose value comes next.
function _oldstyle_read -a command
    set -g _oldstyle_option ''
    set -g _oldstyle_journal
    set -l plain
    for word in (commandline -opc)[3..]
        if test -n "$_oldstyle_option"
            test $_oldstyle_option = --journal; and set _oldstyle_journal $word
            set _oldstyle_option ''
        else if contains -- "$command $word" $_oldstyle_options
            set _oldstyle_option $word
        else if string match -q -- '--journal=*' $word
            set _oldstyle_journal (string sub -s 11 -- $word)
        else if not string match -q -- '--*' $word
            set -a plain $word
        end
    end
    set -g _oldstyle_count (count $plain)
    # It is left out if an option names it, or if the first argument is not a file.
    if contains -- "$command --journal" $_oldstyle_options
        if test -z "$_oldstyle_journal" -a -e "$plain[1]"
            set _oldstyle_journal $plain[1]
        else if test -n "$_oldstyle_journal$plain[1]"; and not contains $command $_oldstyle_pairs
            set _oldstyle_count (math $_oldstyle_count + 1)
        end
    end
end

# Whether an argument of a command comes next, after this many others.
function _oldstyle_at_argument -a command number
    _oldstyle_has $command; or return
    _oldstyle_read $command
    test $_oldstyle_count = $number -a -z "$_oldstyle_option"
end

# Prints the codes of the territories of the journal of a command, or of the default one.
function _oldstyle_codes -a command
    _oldstyle_read $command
    command oldstyle territory $_oldstyle_journal 2> /dev/null < /dev/null |
        string replace -fr '.* \((.*)\)$' '$1'
end

# Takes a row of the grammar: a command; or a command, then the word argument or an option, and what
# its value may be, if it has one: FILE, CODE, TEXT, or one of the words that follow.
function _oldstyle_row -a command place
    set -l values "$argv[3..]"
    set -l wanted -x -a $values
    switch $values
        case FILE
            set wanted -r -F
            test "$place$_oldstyle_number" = argument1; and set -ga _oldstyle_pairs $command
        case CODE
            set wanted -x -a "(_oldstyle_codes $command)"
            test "$place$_oldstyle_number" = argument1
            and complete -c oldstyle -n "_oldstyle_at_argument $command 0" -a "$wanted[3]"
        case TEXT
            set wanted -x
        case ''
            set wanted -f
    end
    if test (count $argv) = 1
        set -g _oldstyle_number 0
        complete -c oldstyle -n '_oldstyle_at_argument oldstyle 0' -a $command
        complete -c oldstyle -n '_oldstyle_at_argument help 0' -a $command
        complete -c oldstyle -n "_oldstyle_has $command" -l help
    else if test $place = argument
        complete -c oldstyle -n "_oldstyle_at_argument $command $_oldstyle_number" $wanted
        set _oldstyle_number (math $_oldstyle_number + 1)
    else
        test -z $values; or set -ga _oldstyle_options "$command $place"
        complete -c oldstyle -n "_oldstyle_has $command" -l (string sub -s 3 -- $place) $wanted
    end
end

complete -c oldstyle -f
"#;

/// The text after the rows in fish.
pub(crate) const FISH_END: &str = r#"_oldstyle_row help
complete -c oldstyle -n '_oldstyle_has oldstyle' -l help
complete -c oldstyle -n '_oldstyle_has oldstyle' -l version
"#;
